// SPDX-License-Identifier: BSD-2-Clause OR GPL-2.0-or-later
// One token: what it does to a walk. `block` has the blob's bytes up to the end of the structure block.
ghost use Rattle.std.specs.Prelude.{◌≡◌};
ghost use Rattle.stream.specs.answers.Walk.{begun, step_of, Small};

use crate::{Next, Walk};
use tables::range_is;
use tokens::TokenRead;

// A node begins.
fn begun(block: &[u8], w: Walk, len: usize, next: usize) -> Walk
    requires { Small w }
    ensures { result ≡ begun block.now w len next }
{
    if w.depth == 1 {
        let is_cpus = range_is(block, w.at + 4, len, b"cpus");
        let mark = usize::from(is_cpus);
        Walk {
            at: next,
            depth: 2,
            fresh: true,
            inside: mark,
            cpus: w.cpus + mark,
            first: if is_cpus { w.at } else { w.first },
            nodes: w.nodes + mark,
            ..w
        }
    } else {
        Walk {
            at: next,
            depth: w.depth + 1,
            fresh: true,
            nodes: w.nodes + w.inside,
            ..w
        }
    }
}

// One token. The root begins once, properties stand in a node before its children, and the end token behind the root, last in the block.
pub fn step(block: &[u8], w: Walk, token: TokenRead) -> Next
    requires { Small w }
    ensures { result ≡ step_of block.now w token }
{
    match token {
        TokenRead::Begin { len, next } if w.depth != 0 || w.fresh => {
            Next::On(begun(block, w, len, next))
        }
        TokenRead::Close if w.depth != 0 => Next::On(Walk {
            at: w.at + 4,
            depth: w.depth - 1,
            fresh: false,
            ..w
        }),
        TokenRead::Property { next, .. } if w.depth != 0 && w.fresh => Next::On(Walk {
            at: next,
            props: w.props + w.inside,
            ..w
        }),
        TokenRead::Nop => Next::On(Walk { at: w.at + 4, ..w }),
        TokenRead::End if w.depth == 0 && !w.fresh => {
            if w.at + 4 < block.len() {
                Next::Breaks(w.at + 4)
            } else {
                Next::Ends(w)
            }
        }
        _ => Next::Breaks(w.at),
    }
}
