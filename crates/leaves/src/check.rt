// SPDX-License-Identifier: BSD-2-Clause OR GPL-2.0-or-later
// Rules 18 to 24 at one record, and the cpu that it names.
ghost use Rattle.std.specs.Prelude.{◌≡◌, IfErr, length};
ghost use Rattle.leaves.specs.answers.Check.{indexed_cpu, record_check};
ghost use Rattle.leaves.specs.answers.Told.{check_told};

use crate::leaf::leaf_cpu;
use laws::{Refusal, Rule};
use property_index::{INDEX_WORDS, Key, find_indexed};
use tables::{Tables, record_of};
use topology::record_shape;

// The index of the cpu that record i names where it is a leaf, or the first of 18 to 24 that it breaks: rule 24 is told of its `cpu`.
pub fn record_check(
    tables: &Tables,
    index: &[u16; INDEX_WORDS],
    map: usize,
    phandles: &[u64],
    i: usize,
) -> Result<Option<usize>, Refusal>
    ensures answer { let at = indexed_cpu tables.now.props.now index.now in
        check_told (length phandles.now) result ≡ record_check tables.now.nodes.now at tables.now.pool.now map phandles.now i }
    ensures place { IfErr result (λ refusal. refusal.place ≡ i) }
{
    match record_shape(tables, map, i) {
        Ok(true) => {}
        Ok(false) => return Ok(None),
        Err(rule) => return Err(rule.at(i)),
    }
    let found = find_indexed(tables.props, index, i, Key::Cpu);
    if let Some(cpu) = leaf_cpu(tables.pool, phandles, found) {
        return Ok(Some(cpu));
    }
    Err(Refusal {
        rule: Rule::CpuMapPhandle,
        place: i,
        property: record_of(found),
    })
}
