// SPDX-License-Identifier: BSD-2-Clause OR GPL-2.0-or-later
// Rules 5 and 6: each node record.
ghost use Rattle.std.specs.Prelude.{◌≡◌};
ghost use Rattle.laws.specs.answers.Fault.{first_fault};
ghost use Rattle.laws.specs.answers.Told.{number_in, broken_in};
ghost use Rattle.tables.specs.facts.Board.{node_count};
ghost use Rattle.records.specs.answers.Check.{sound_parent, node_fault};

use crate::name::sound_name;
use laws::limits::{MAX_NODE_NAME, NO_PARENT};
use laws::{Broken, Rule, first_broken};
use tables::{is_below, node_word};

// Whether the parent of record i is the record before it or an ancestor of that one; record 0 has none.
fn sound_parent(nodes: &[u32], i: usize) -> bool
    ensures { result ≡ sound_parent nodes.now i }
{
    let parent = node_word(nodes, i, 0);
    if i == 0 {
        return parent == NO_PARENT;
    }
    let before = i - 1;
    parent == before || is_below(nodes, before, parent)
}

// The smaller of 5 and 6 that record i breaks.
fn node_fault(nodes: &[u32], bytes: usize, i: usize) -> Result<(), Rule>
    ensures { number_in result ≡ node_fault nodes.now bytes i }
{
    let offset = node_word(nodes, i, 1);
    let len = node_word(nodes, i, 2);
    let named = sound_name(bytes, MAX_NODE_NAME, offset, len);
    let placed = sound_parent(nodes, i);
    if !named {
        return Err(Rule::NodeNameRange);
    }
    if !placed {
        return Err(Rule::NodeParentOrder);
    }
    Ok(())
}

// The lowest record that breaks rule 5 or 6.
pub fn first_node_fault(nodes: &[u32], bytes: usize) -> Result<(), Broken>
    ensures { let table = nodes.now in
        broken_in result ≡ first_fault (node_fault table bytes) (node_count table) }
{
    first_broken(nodes.len() / 3, |i| node_fault(nodes, bytes, i))
}
