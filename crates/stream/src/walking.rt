// SPDX-License-Identifier: BSD-2-Clause OR GPL-2.0-or-later
// The walk over a structure block.
ghost use Rattle.std.specs.Prelude.{◌≡◌, length};
ghost use Rattle.stream.specs.answers.Walk.{walk, Bounded};

use crate::step::step;
use crate::{Next, Walk};
use tokens::token_at;

// The walk from `start` up to the end of the block, or the place that breaks the stream. Names of properties begin before `named`.
pub fn survey(block: &[u8], named: usize, start: usize) -> Result<Walk, usize>
    ensures walk { result ≡ walk block.now named start }
    ensures bounded { Bounded (length block.now) result }
{
    let mut w = Walk {
        at: start,
        fresh: true,
        ..Walk::default()
    };
    // A `while`: the next place comes from the token.
    while w.at < block.len() {
        match step(block, w, token_at(block, named, w.at)) {
            Next::On(v) => w = v,
            Next::Ends(v) => return Ok(v),
            Next::Breaks(place) => return Err(place),
        }
    }
    Err(block.len())
}
