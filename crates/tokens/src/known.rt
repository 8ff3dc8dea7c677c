// SPDX-License-Identifier: BSD-2-Clause OR GPL-2.0-or-later
// Reading a token where one is known to stand: whether its data lie in the block is not tested again.
ghost use Rattle.std.specs.Prelude.{◌≡◌};
ghost use Rattle.tokens.specs.answers.Read.{known_read};

use crate::TokenRead;
use crate::cell::{BEGIN_NODE, END_NODE, NOP, PROP};
use crate::token::{begin_at, property_at};
use tables::cell_at;

// The token at a place; names of properties begin in a strings block of so many bytes. Tests in this order, as in `token_at`.
// Unlike `token_at` it does not tell the end token and tests no place. One function for both was tried: it was called, not put in its place,
// and handed its enum through memory, 2.5 times the time on an older kit (docs/SPEED.md, "A blob").
pub fn known_at(block: &[u8], names: usize, at: usize) -> TokenRead
    ensures { result ≡ known_read block.now names at }
{
    let cell = cell_at(block, at);
    if cell == PROP {
        property_at::<false>(block, names, at)
    } else if PROP < cell {
        if cell == NOP {
            TokenRead::Nop
        } else {
            TokenRead::Unsound
        }
    } else if cell == BEGIN_NODE {
        begin_at::<false>(block, at)
    } else if cell == END_NODE {
        TokenRead::Close
    } else {
        TokenRead::Unsound
    }
}
