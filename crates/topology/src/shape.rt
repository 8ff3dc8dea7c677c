// SPDX-License-Identifier: BSD-2-Clause OR GPL-2.0-or-later
// Depth of clusters and groups without children: rules 22 and 23.
ghost use Rattle.std.specs.Prelude.{◌≡◌};
ghost use Rattle.laws.specs.answers.Told.{number_in};
ghost use Rattle.topology.specs.answers.Check.{has_child, group_fault, depth_fault, shape_fault};

use cpumap::position_of;
use laws::Rule;
use names::TopologyName;
use tables::{Tables, is_child};

// Whether the record after i is its child. In a depth-first table: whether i has children.
pub fn has_child(nodes: &[u32], i: usize) -> bool
    ensures { result ≡ has_child nodes.now i }
{
    i < nodes.len() / 3 && is_child(nodes, i, i + 1)
}

// Rule 23: record i has no children.
pub fn group_fault(nodes: &[u32], i: usize) -> Result<(), Rule>
    ensures { number_in result ≡ group_fault nodes.now i }
{
    if has_child(nodes, i) {
        return Ok(());
    }
    Err(Rule::CpuMapEmpty)
}

// Rule 22: a cluster under record p has four clusters above it.
fn depth_fault(tables: &Tables, p: usize) -> Result<(), Rule>
    ensures { number_in result ≡ depth_fault tables.now.nodes.now tables.now.pool.now p }
{
    // Record p has at most p ancestors, and record 0 is not counted.
    if p < 4 || position_of(tables, p).clusters.depth < 4 {
        return Ok(());
    }
    Err(Rule::CpuMapDepth)
}

// What record i, a child of p, breaks of 22 and 23, by its kind.
pub fn shape_fault(tables: &Tables, p: usize, i: usize, name: TopologyName) -> Result<(), Rule>
    ensures { number_in result ≡ shape_fault tables.now.nodes.now tables.now.pool.now p i name }
{
    match name {
        TopologyName::Socket(_) => group_fault(tables.nodes, i),
        TopologyName::Cluster(_) => {
            depth_fault(tables, p)?;
            group_fault(tables.nodes, i)
        }
        TopologyName::Core(_) | TopologyName::Thread(_) => Ok(()),
        TopologyName::Other => Err(Rule::CpuMapName),
    }
}
