// SPDX-License-Identifier: BSD-2-Clause OR GPL-2.0-or-later
// The records of a node table: parents, ancestors, names.
ghost use Rattle.std.specs.Prelude.{◌≡◌};
ghost use Rattle.tables.specs.facts.Board.{name_offset, name_length};
ghost use Rattle.tables.specs.answers.Range.{range_is};
ghost use Rattle.tables.specs.answers.Tree.{is_child, parent_of, is_below};
ghost use Rattle.tables.specs.steps.Tree.{is_at_or_below};

use crate::Tables;
use crate::pool::range_is;
use crate::words::{node_word, wide};

// The parent of record i. A record outside the table has none, nor has one whose parent word is not below its number.
pub fn parent_of(nodes: &[u32], i: usize) -> Option<usize>
    ensures { result ≡ parent_of nodes.now i }
{
    if nodes.len() / 3 <= i {
        return None;
    }
    let word = wide(nodes[3 * i]);
    (word < i).then_some(word)
}

// Whether record i is a child of record p.
pub fn is_child(nodes: &[u32], p: usize, i: usize) -> bool
    ensures { result ≡ is_child nodes.now p i }
{
    i < nodes.len() / 3 && node_word(nodes, i, 0) == p && p < i
}

// Whether record p is record a or below it. Ancestors have smaller numbers: at a record not after a the search ends.
fn reaches(nodes: &[u32], p: usize, a: usize) -> bool
    ensures { result ≡ is_at_or_below nodes.now p a }
{
    if p <= a {
        return p == a;
    }
    let Some(q) = parent_of(nodes, p) else {
        return false;
    };
    reaches(nodes, q, a)
}

// Whether record a is an ancestor of record i.
pub fn is_below(nodes: &[u32], i: usize, a: usize) -> bool
    ensures { result ≡ is_below nodes.now i a }
{
    let Some(p) = parent_of(nodes, i) else {
        return false;
    };
    reaches(nodes, p, a)
}

// Whether the name of record i is the given one.
pub fn name_is(tables: &Tables, i: usize, bytes: &[u8]) -> bool
    ensures { let table = tables.now.nodes.now in
        result ≡ range_is tables.now.pool.now (name_offset table i) (name_length table i) bytes.now }
{
    let start = node_word(tables.nodes, i, 1);
    let len = node_word(tables.nodes, i, 2);
    range_is(tables.pool, start, len, bytes)
}
