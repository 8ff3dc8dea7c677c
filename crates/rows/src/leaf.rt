// SPDX-License-Identifier: BSD-2-Clause OR GPL-2.0-or-later
// The row of one leaf.
ghost use Rattle.std.specs.Prelude.{◌≡◌};
ghost use Rattle.tables.specs.facts.Board.{parent_word};
ghost use Rattle.cpumap.specs.answers.Path.{topology_name, position_of};
ghost use Rattle.rows.specs.answers.Leaf.{core_of, thread_of, row_of};
ghost use Rattle.rows.specs.steps.Position.{keeps_position, placed};

use crate::{NamedCpu, Placed};
use cpumap::{Position, position_of, topology_name, topology_number};
use layout::{GAP, Row};
use names::TopologyName;
use tables::{Tables, parent_of};

// The number of a leaf's core: its own, or for a thread that of its parent p. GAP of any other name, as the definition `core_of` has it.
fn core_of(tables: &Tables, name: TopologyName, p: usize) -> u32
    ensures { result ≡ core_of name (topology_name tables.now.nodes.now tables.now.pool.now p) }
{
    match name {
        TopologyName::Core(n) => n,
        TopologyName::Thread(_) => topology_number(topology_name(tables, p)),
        _ => GAP,
    }
}

// The number of a leaf that is a thread, else GAP: the word of the row that C reads.
fn thread_of(name: TopologyName) -> u32
    ensures { result ≡ thread_of name }
{
    match name {
        TopologyName::Thread(n) => n,
        _ => GAP,
    }
}

// Whether a record of that name, under that parent, has its parent's position: it is neither a socket nor a cluster.
fn keeps_position(parent: Option<usize>, name: TopologyName) -> bool
    ensures { result ≡ keeps_position parent name }
{
    parent.is_some() && !matches!(name, TopologyName::Socket(_) | TopologyName::Cluster(_))
}

// The position of a leaf, given its name and the position of the record that its parent word names.
fn leaf_position(tables: &Tables, leaf: usize, name: TopologyName, above: Position) -> Position
    requires name { name ≡ topology_name tables.now.nodes.now tables.now.pool.now leaf }
    requires above { let table = tables.now.nodes.now in
        above ≡ position_of table tables.now.pool.now (parent_word table leaf) }
    ensures { result ≡ position_of tables.now.nodes.now tables.now.pool.now leaf }
{
    if keeps_position(parent_of(tables.nodes, leaf), name) {
        return above;
    }
    position_of(tables, leaf)
}

// The row of a leaf record and of the cpu that it names, given its parent.
pub fn row_of(tables: &Tables, above: Placed, leaf: usize, named: NamedCpu) -> Row
    requires { let table = tables.now.nodes.now in
        above ≡ placed table tables.now.pool.now (parent_word table leaf) }
    ensures { result ≡ row_of tables.now.nodes.now tables.now.pool.now leaf named }
{
    let name = topology_name(tables, leaf);
    let position = leaf_position(tables, leaf, name, above.position);
    let path = position.clusters.numbers;
    // An `as` takes no number that does not fit: remainders and quotients, as the definition `row_of` has them.
    Row {
        leaf: (leaf % 4294967296) as u32,
        cpu: (named.cpu % 4294967296) as u32,
        upper: (named.reg / 4294967296) as u32,
        lower: (named.reg % 4294967296) as u32,
        socket: position.socket,
        path,
        core: core_of(tables, name, above.node),
        thread: thread_of(name),
        slot: named.slot,
    }
}
