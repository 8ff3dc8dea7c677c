// SPDX-License-Identifier: BSD-2-Clause OR GPL-2.0-or-later
// One pass over the records that gathers the leaves of the map: rules 18 to 25.
ghost use Rattle.std.specs.Prelude.{◌≡◌, ◌≤◌, false, length, replicate};
ghost use Rattle.tables.specs.facts.Board.{node_count};
ghost use Rattle.laws.specs.facts.Limits.{max_nodes, max_cpus};
ghost use Rattle.leaves.specs.answers.Check.{indexed_cpu};
ghost use Rattle.leaves.specs.answers.Scan.{tree};
ghost use Rattle.leaves.specs.answers.Told.{tree_told};
ghost use Rattle.leaves.specs.steps.Pass.{is_marked, PassArrays, leaf_scan};

use crate::check::record_check;
use laws::limits::MAX_CPUS;
use laws::{Refusal, Rule};
use property_index::INDEX_WORDS;
use tables::Tables;

// Whether a table of marks has cpu k marked.
pub fn is_marked(marks: &[bool], k: usize) -> bool
    ensures { result ≡ is_marked marks.now k }
{
    marks.get(k).copied().unwrap_or(false)
}

// How many leaves there are, or the first of rules 18 to 25 that is broken. The leaves up to the record that breaks one are
// listed, and the cpus that they name listed and marked. The lists are lent, and the count is the answer: fixed memory without a heap, and
// the clause `arrays` tells what the lists hold past the count.
pub fn scan_records(
    tables: &Tables,
    index: &[u16; INDEX_WORDS],
    map: usize,
    phandles: &[u64],
    marks: &mut [bool],
    leaves: &mut [u16; MAX_CPUS],
    named: &mut [u16; MAX_CPUS],
) -> Result<usize, Refusal>
    requires few { (length phandles.now ≤ max_cpus) × (node_count tables.now.nodes.now ≤ max_nodes) }
    requires marks { marks.old ≡ replicate max_cpus false }
    ensures answer { let at = indexed_cpu tables.now.props.now index.now in
        let t = tree tables.now.nodes.now at tables.now.pool.now map phandles.now in
        tree_told result ≡ leaf_scan t }
    ensures arrays { let at = indexed_cpu tables.now.props.now index.now in
        let t = tree tables.now.nodes.now at tables.now.pool.now map phandles.now in
        PassArrays t leaves.old named.old marks.new leaves.new named.new }
{
    // No `first_broken`, and counted by hand: the lists are filled on the way, and a record that is no leaf has no place in them.
    let mut count = 0;
    for i in 0..tables.nodes.len() / 3 {
        let Some(cpu) = record_check(tables, index, map, phandles, i)? else {
            continue;
        };
        if is_marked(marks, cpu) {
            return Err(Rule::CpuMapCpuRepeated.at(i));
        }
        leaves[count] = i as u16;
        named[count] = cpu as u16;
        marks[cpu] = true;
        count += 1;
    }
    Ok(count)
}
