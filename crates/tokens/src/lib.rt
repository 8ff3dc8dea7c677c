// SPDX-License-Identifier: BSD-2-Clause OR GPL-2.0-or-later
// The tokens of a flattened devicetree: what stands at a place of the structure block.
#![tactic(auto)]

mod cell;
mod known;
mod token;
mod zero;

pub use known::known_at;
pub use token::token_at;
pub use zero::{behind_zero, zero_from};

// What reading a token finds: a node name's length, a property name's offset in the strings block, a value's size, and where the next
// token stands. Close, Nop and End take four bytes. Unsound: no token stands there; no Option, since the definitions (`token_read`) have six
// cases.
#[derive(Clone, Copy)]
pub enum TokenRead {
    Begin {
        len: usize,
        next: usize,
    },
    Close,
    Property {
        name: usize,
        size: usize,
        next: usize,
    },
    Nop,
    End,
    Unsound,
}
