// SPDX-License-Identifier: BSD-2-Clause OR GPL-2.0-or-later
// Reading one token of a structure block. `block` has the blob's bytes up to the end of that block.
ghost use Rattle.std.specs.Prelude.{◌≡◌, ◌+◌, ◌≤◌, ◌<◌, cond, length};
ghost use Rattle.tokens.specs.facts.Token.{aligned};
ghost use Rattle.tokens.specs.answers.Read.{begin_read, property_read, token_read, known_begin, known_property};

use crate::TokenRead;
use crate::cell::{BEGIN_NODE, END, END_NODE, NOP, PROP};
use crate::zero::zero_from;
use tables::{cell_at, is_inside, wide};

// Where the next token stands, behind data that end at a place. A function for its clause, which has the sum of the definitions.
fn aligned(end: usize) -> usize
    requires { end + 3 < 18446744073709551616 }
    ensures { result ≡ aligned end }
{
    end.next_multiple_of(4)
}

// A begin token. Where that is tested, its name ends before the block does.
pub fn begin_at<const TESTED: bool>(block: &[u8], at: usize) -> TokenRead
    requires { at + 4 ≤ length block.now }
    ensures { result ≡ cond TESTED (begin_read block.now at) (known_begin block.now at) }
{
    let from = at + 4;
    let stop = zero_from(block, from);
    // The length stands for no zero byte: the definition of `zero_from` answers it.
    if TESTED && stop == block.len() {
        return TokenRead::Unsound;
    }
    TokenRead::Begin {
        len: stop - from,
        next: aligned(stop + 1),
    }
}

// A property, whose name begins before `named`. Where that is tested, its value ends in the block.
pub fn property_at<const TESTED: bool>(block: &[u8], named: usize, at: usize) -> TokenRead
    requires { at + 4 ≤ length block.now }
    ensures { result ≡ cond TESTED (property_read block.now named at) (known_property block.now named at) }
{
    let size = wide(cell_at(block, at + 4));
    let name = wide(cell_at(block, at + 8));
    let stop = at + 12 + size;
    if TESTED && block.len() < stop {
        return TokenRead::Unsound;
    }
    if named <= name {
        return TokenRead::Unsound;
    }
    let next = aligned(stop);
    TokenRead::Property { name, size, next }
}

// The token at a place.
// Most tokens are properties, so their cell is tested first. Tests in this order, and no match, since that makes a jump table (cell.rt).
// `known_at` is a function of its own: its comment has the reason.
pub fn token_at(block: &[u8], named: usize, at: usize) -> TokenRead
    ensures { result ≡ token_read block.now named at }
{
    if !is_inside(block.len(), at, 4) {
        return TokenRead::Unsound;
    }
    let cell = cell_at(block, at);
    if cell == PROP {
        property_at::<true>(block, named, at)
    } else if cell < PROP {
        if cell == BEGIN_NODE {
            begin_at::<true>(block, at)
        } else if cell == END_NODE {
            TokenRead::Close
        } else {
            TokenRead::Unsound
        }
    } else if cell == NOP {
        TokenRead::Nop
    } else if cell == END {
        TokenRead::End
    } else {
        TokenRead::Unsound
    }
}
