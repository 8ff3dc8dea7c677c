// SPDX-License-Identifier: BSD-2-Clause OR GPL-2.0-or-later
// Rules 18 to 23 at one record, and whether it is a leaf.
ghost use Rattle.std.specs.Prelude.{◌≡◌, cond, ◌<◌, eqb};
ghost use Rattle.laws.specs.answers.Told.{number_in};
ghost use Rattle.topology.specs.answers.Told.{shape_told};
ghost use Rattle.tables.specs.facts.Board.{node_count, parent_word};
ghost use Rattle.cpumap.specs.answers.Path.{topology_name};
ghost use Rattle.cpumap.specs.answers.Number.{kind_number};
ghost use Rattle.topology.specs.answers.Check.{is_leaf_name, map_record_fault, map_record_shape, record_shape};

use crate::kind::kind_fault;
use crate::shape::{group_fault, has_child, shape_fault};
use crate::siblings::number_fault;
use cpumap::{topology_name, topology_number};
use laws::Rule;
use names::TopologyName;
use tables::{Tables, is_below, node_word};

// The smallest of 19 to 23 that record i, below the map and so named, breaks.
fn map_record_fault(tables: &Tables, map: usize, i: usize, name: TopologyName) -> Result<(), Rule>
    requires { let table = tables.now.nodes.now in
        (i < node_count table) × (parent_word table i < i) }
    ensures { number_in result ≡ map_record_fault tables.now.nodes.now tables.now.pool.now map i name }
{
    if matches!(name, TopologyName::Other) {
        return Err(Rule::CpuMapName);
    }
    let p = node_word(tables.nodes, i, 0);
    kind_fault(tables, map, p, name)?;
    number_fault(tables, p, i, topology_number(name))?;
    shape_fault(tables, p, i, name)
}

// Whether the name of record i is a leaf's: a thread's, or that of a core without children.
fn is_leaf_name(nodes: &[u32], i: usize, name: TopologyName) -> bool
    ensures { result ≡ is_leaf_name nodes.now i name }
{
    match name {
        TopologyName::Core(_) => !has_child(nodes, i),
        TopologyName::Thread(_) => true,
        _ => false,
    }
}

// Whether record i, below the map and so named, is a leaf, or the first of 19 to 23 that it breaks.
fn map_record_shape(tables: &Tables, map: usize, i: usize, name: TopologyName) -> Result<bool, Rule>
    requires { let table = tables.now.nodes.now in
        (i < node_count table) × (parent_word table i < i) × (name ≡ topology_name table tables.now.pool.now i) }
    ensures { shape_told result ≡ map_record_shape tables.now.nodes.now tables.now.pool.now map i }
{
    map_record_fault(tables, map, i, name)?;
    Ok(is_leaf_name(tables.nodes, i, name))
}

// Rule 18: a record outside the map has a topology name.
fn outside_fault(name: TopologyName) -> Result<(), Rule>
    ensures { number_in result ≡ cond (eqb (kind_number name) 0) 0 18 }
{
    if matches!(name, TopologyName::Other) {
        return Ok(());
    }
    Err(Rule::TopologyOutsideMap)
}

// Whether record i is a leaf, or the first of 18 to 23 that it breaks.
pub fn record_shape(tables: &Tables, map: usize, i: usize) -> Result<bool, Rule>
    ensures { shape_told result ≡ record_shape tables.now.nodes.now tables.now.pool.now map i }
{
    if i == 0 {
        return Ok(false);
    }
    if i == map {
        group_fault(tables.nodes, i)?;
        return Ok(false);
    }
    let name = topology_name(tables, i);
    if is_below(tables.nodes, i, map) {
        return map_record_shape(tables, map, i, name);
    }
    outside_fault(name)?;
    Ok(false)
}
