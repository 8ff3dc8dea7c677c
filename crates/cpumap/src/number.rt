// SPDX-License-Identifier: BSD-2-Clause OR GPL-2.0-or-later
// A topology name's kind and number, as numbers.
ghost use Rattle.std.specs.Prelude.{◌≡◌};
ghost use Rattle.cpumap.specs.answers.Number.{kind_number, topology_number};

use names::TopologyName;

// A kind as a number, from 1; 0 for Other: the definition `kind_number` and the program `cases` tell these.
pub fn kind_number(name: TopologyName) -> u32
    ensures { result ≡ kind_number name }
{
    match name {
        TopologyName::Socket(_) => 1,
        TopologyName::Cluster(_) => 2,
        TopologyName::Core(_) => 3,
        TopologyName::Thread(_) => 4,
        TopologyName::Other => 0,
    }
}

// The number in a topology name, 0 where it is none: the definition `topology_number` and the program `cases` tell it so.
pub fn topology_number(name: TopologyName) -> u32
    ensures { result ≡ topology_number name }
{
    match name {
        TopologyName::Socket(n)
        | TopologyName::Cluster(n)
        | TopologyName::Core(n)
        | TopologyName::Thread(n) => n,
        TopologyName::Other => 0,
    }
}
