// SPDX-License-Identifier: BSD-2-Clause OR GPL-2.0-or-later
// Kinds of the map's records and which may stand under which: rule 20.
ghost use Rattle.std.specs.Prelude.{◌≡◌, cond, ◌<◌, eqb};
ghost use Rattle.laws.specs.answers.Told.{number_in};
ghost use Rattle.tables.specs.facts.Board.{node_count};
ghost use Rattle.cpumap.specs.answers.Path.{topology_name};
ghost use Rattle.topology.specs.answers.Check.{allowed_under, allowed_in_map, kind_fault};

use cpumap::{kind_number, topology_name};
use laws::Rule;
use names::TopologyName;
use tables::Tables;

// Whether a name may stand right under the map.
fn allowed_in_map(name: TopologyName) -> bool
    ensures { result ≡ allowed_in_map name }
{
    matches!(name, TopologyName::Socket(_) | TopologyName::Cluster(_))
}

// Whether a name may stand right under another.
fn allowed_under(parent: TopologyName, name: TopologyName) -> bool
    ensures { result ≡ allowed_under parent name }
{
    matches!(
        (parent, name),
        (TopologyName::Socket(_), TopologyName::Cluster(_))
            | (TopologyName::Cluster(_), TopologyName::Cluster(_))
            | (TopologyName::Cluster(_), TopologyName::Core(_))
            | (TopologyName::Core(_), TopologyName::Thread(_))
    )
}

// Whether a name may stand right under record p, in a map.
fn is_allowed(tables: &Tables, map: usize, p: usize, name: TopologyName) -> bool
    ensures { let table = tables.now.nodes.now in
        result ≡ cond (eqb p map) (allowed_in_map name) (allowed_under (topology_name table tables.now.pool.now p) name) }
{
    if p == map {
        allowed_in_map(name)
    } else {
        allowed_under(topology_name(tables, p), name)
    }
}

// Rule 20: a name may not stand under record p, whose first child is record p + 1, or has another kind than that child.
pub fn kind_fault(tables: &Tables, map: usize, p: usize, name: TopologyName) -> Result<(), Rule>
    requires { p < node_count tables.now.nodes.now }
    ensures { number_in result ≡ kind_fault tables.now.nodes.now tables.now.pool.now map p name }
{
    // Kinds are compared by their numbers: a derived equality of two names would compare the numbers in them too.
    if is_allowed(tables, map, p, name)
        && kind_number(name) == kind_number(topology_name(tables, p + 1))
    {
        return Ok(());
    }
    Err(Rule::CpuMapKind)
}
