// SPDX-License-Identifier: BSD-2-Clause OR GPL-2.0-or-later
// What a record's name says, and the clusters on a path, outermost first.
ghost use Rattle.std.specs.Prelude.{◌≡◌};
ghost use Rattle.cpumap.specs.answers.Path.{topology_name, no_clusters, extend, cluster_step};

use crate::ClusterPath;
use layout::GAP;
use names::{TopologyName, name_of};
use tables::{Tables, is_inside, node_word};

// What record i's name says. Other where it is no record or its name leaves the pool.
pub fn topology_name(tables: &Tables, i: usize) -> TopologyName
    ensures { result ≡ topology_name tables.now.nodes.now tables.now.pool.now i }
{
    if tables.nodes.len() / 3 <= i {
        return TopologyName::Other;
    }
    let offset = node_word(tables.nodes, i, 1);
    let len = node_word(tables.nodes, i, 2);
    if !is_inside(tables.pool.len(), offset, len) {
        return TopologyName::Other;
    }
    name_of(&tables.pool[offset..offset + len])
}

impl ClusterPath {
    pub fn empty() -> Self
        ensures { result ≡ no_clusters }
    {
        Self {
            numbers: [GAP; 4],
            depth: 0,
        }
    }

    // The path with one cluster more. A full path stays as it is.
    pub fn extended(mut self, number: u32) -> Self
        ensures { result ≡ extend self number }
    {
        let depth = self.depth;
        if depth < 4 {
            self.numbers[depth] = number;
            self.depth = depth + 1;
        }
        self
    }
}

// A record's path, from its name and its parent's path.
pub fn cluster_step(name: TopologyName, above: ClusterPath) -> ClusterPath
    ensures { result ≡ cluster_step name above }
{
    match name {
        TopologyName::Cluster(n) => above.extended(n),
        _ => above,
    }
}
