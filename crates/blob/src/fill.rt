// SPDX-License-Identifier: BSD-2-Clause OR GPL-2.0-or-later
// Filling the tables from the begin token of a node up to its close token.
ghost use Rattle.std.specs.Prelude.{◌≡◌, cond, ◌++◌, ◌+◌, ◌≤◌, length, drop};
ghost use Rattle.flat.specs.answers.Fill.{has_outer, filled_from};

use crate::ends::{MAX_RUNS, name_end, note_ends};
use crate::put::put_record;
use laws::limits::NO_PARENT;
use tables::node_word;
use tokens::{TokenRead, known_at};

// The place behind a close token: the end, where no record is open around the closed one.
fn behind_close(at: usize, end: usize, top: usize, count: usize) -> usize
    requires { at ≤ 65536 }
    ensures { result ≡ cond (has_outer top count) (at + 4) end }
{
    if 0 < top && top < count { at + 4 } else { end }
}

// Fills both tables from their fronts; they have room for all records. The strings block begins at `base`. The blocks are slices of the
// lent blob, so the limit of 65,536 bytes is asked of each: a struct of both would be taken apart in every line.
pub fn fill(
    block: &[u8],
    first: usize,
    strings: &[u8],
    base: usize,
    nodes: &mut [u32],
    props: &mut [u32],
)
    requires sizes { (length block.now ≤ 65536) × (base + length strings.now ≤ 65536) }
    requires nodes { length (filled_from block.now strings.now base first).nodes ≤ length nodes.old }
    requires props { length (filled_from block.now strings.now base first).props ≤ length props.old }
    ensures nodes { let words = (filled_from block.now strings.now base first).nodes in
        nodes.new ≡ words ++ drop (length words) nodes.old }
    ensures props { let words = (filled_from block.now strings.now base first).props in
        props.new ≡ words ++ drop (length words) props.old }
{
    let mut ends = [0u32; MAX_RUNS];
    note_ends(strings, &mut ends);
    let mut at = first;
    // No node is open: fill_start says it so, and a record's parent word holds the same number.
    let mut top = NO_PARENT;
    // How many records of each table are filled. Fixed memory, and counts beside it: there is no heap.
    let mut count: usize = 0;
    let mut owned: usize = 0;
    // The next place comes from the token: no index is counted.
    while at < block.len() {
        match known_at(block, strings.len(), at) {
            TokenRead::Begin { len, next } => {
                put_record(nodes, count, [top, at + 4, len]);
                top = count;
                count += 1;
                at = next;
            }
            TokenRead::Close => {
                at = behind_close(at, block.len(), top, count);
                top = node_word(nodes, top, 0);
            }
            TokenRead::Property { name, size, next } => {
                let len = name_end(strings, &ends, name) - name;
                put_record(props, owned, [top, base + name, len, at + 12, size]);
                owned += 1;
                at = next;
            }
            TokenRead::Nop => {
                at += 4;
            }
            TokenRead::End | TokenRead::Unsound => {
                at = block.len();
            }
        }
    }
}
