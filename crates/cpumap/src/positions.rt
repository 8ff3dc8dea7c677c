// SPDX-License-Identifier: BSD-2-Clause OR GPL-2.0-or-later
// Where a record stands: its socket and its clusters, read together.
ghost use Rattle.std.specs.Prelude.{◌≡◌};
ghost use Rattle.cpumap.specs.answers.Path.{socket_step, position_of};
ghost use Rattle.cpumap.specs.steps.Position.{no_position, position_step};

use crate::path::{cluster_step, topology_name};
use crate::{ClusterPath, Position};
use layout::GAP;
use names::TopologyName;
use tables::{Tables, parent_of};

// A record's socket, from its name and its parent's socket.
fn socket_step(name: TopologyName, above: u32) -> u32
    ensures { result ≡ socket_step name above }
{
    match name {
        TopologyName::Socket(n) => n,
        _ => above,
    }
}

// The position of a record without a parent.
fn no_position() -> Position
    ensures { result ≡ no_position }
{
    Position {
        socket: GAP,
        clusters: ClusterPath::empty(),
    }
}

// A record's position, from its name and its parent's position.
fn position_step(name: TopologyName, above: Position) -> Position
    ensures { result ≡ position_step name above }
{
    Position {
        socket: socket_step(name, above.socket),
        clusters: cluster_step(name, above.clusters),
    }
}

// The position of record i.
pub fn position_of(tables: &Tables, i: usize) -> Position
    ensures { result ≡ position_of tables.now.nodes.now tables.now.pool.now i }
{
    let Some(p) = parent_of(tables.nodes, i) else {
        return no_position();
    };
    position_step(topology_name(tables, i), position_of(tables, p))
}
