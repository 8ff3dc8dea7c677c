// SPDX-License-Identifier: BSD-2-Clause OR GPL-2.0-or-later
// The leaves of the map: rules 18 to 26.
ghost use Rattle.std.specs.Prelude.{◌≡◌, length};
ghost use Rattle.laws.specs.answers.Told.{told_in};
ghost use Rattle.leaves.specs.answers.Told.{tree_told};
ghost use Rattle.laws.specs.answers.Fault.{first_fault};
ghost use Rattle.laws.specs.answers.Listed.{fault_of_member};
ghost use Rattle.leaves.specs.answers.Scan.{tree_in, tree_scan, leaves_over, named_over};
ghost use Rattle.leaves.specs.steps.Pass.{unmarked_fault};

use crate::pass::{is_marked, scan_records};
use laws::limits::{MAX_CPUS, MAX_NODES};
use laws::{Refusal, Rule};
use property_index::INDEX_WORDS;
use tables::Tables;

// The first of a list of cpu records that breaks rule 26: its index in the list is not marked. No `first_broken`: what is told is the record.
fn first_unmapped(records: &[u16], marks: &[bool]) -> Result<(), Refusal>
    ensures { let list = records.now in
        told_in result ≡ fault_of_member list (first_fault (unmarked_fault marks.now) (length list)) }
{
    for (k, record) in records.iter().enumerate() {
        if !is_marked(marks, k) {
            return Err(Rule::CpuUnmapped.at(usize::from(*record)));
        }
    }
    Ok(())
}

// Checks rules 18 to 26, and lists the leaves, and for each the index of the cpu record that it names. It looks at the first 1,024 records and
// at the first 256 phandles. The lists are lent, and the count is the answer: fixed memory without a heap.
pub fn read_tree(
    tables: &Tables,
    index: &[u16; INDEX_WORDS],
    map: usize,
    cpu_records: &[u16],
    phandles: &[u64],
    leaves: &mut [u16; MAX_CPUS],
    named: &mut [u16; MAX_CPUS],
) -> Result<usize, Refusal>
    ensures answer { let t = tree_in tables.now index.now map phandles.now in
        tree_told result ≡ tree_scan t cpu_records.now }
    ensures leaves { let t = tree_in tables.now index.now map phandles.now in
        leaves.new ≡ leaves_over t leaves.old }
    ensures named { let t = tree_in tables.now index.now map phandles.now in
        named.new ≡ named_over t named.old }
{
    let words = tables.nodes.len().min(3 * MAX_NODES);
    let known = phandles.len().min(MAX_CPUS);
    let first = Tables {
        nodes: &tables.nodes[..words],
        ..*tables
    };
    let mut marks = [false; MAX_CPUS];
    let count = scan_records(
        &first,
        index,
        map,
        &phandles[..known],
        &mut marks,
        leaves,
        named,
    )?;
    first_unmapped(cpu_records, &marks)?;
    Ok(count)
}
