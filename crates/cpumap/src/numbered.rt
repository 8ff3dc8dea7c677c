// SPDX-License-Identifier: BSD-2-Clause OR GPL-2.0-or-later
// Whether the name of a record has a given number.
ghost use Rattle.std.specs.Prelude.{◌≡◌};
ghost use Rattle.cpumap.specs.answers.Number.{is_numbered};
ghost use Rattle.cpumap.specs.answers.Path.{topology_name};
ghost use Rattle.cpumap.specs.steps.LastDigit.{ends_otherwise};

use crate::number::topology_number;
use crate::path::topology_name;
use names::TopologyName;
use tables::{Tables, is_inside, node_word};

// Whether the name of record i lies inside the pool and ends in another byte than the last digit of n.
fn ends_otherwise(tables: &Tables, i: usize, n: u32) -> bool
    ensures { result ≡ ends_otherwise tables.now.nodes.now tables.now.pool.now i n }
{
    let offset = node_word(tables.nodes, i, 1);
    let len = node_word(tables.nodes, i, 2);
    if len == 0 || !is_inside(tables.pool.len(), offset, len) {
        return false;
    }
    let last = tables.pool[offset + len - 1];
    u32::from(last) != 48 + n % 10
}

// Whether the name of record i is a topology name with the number n. Most names with other numbers are known by their last byte.
pub fn has_number(tables: &Tables, i: usize, n: u32) -> bool
    ensures { result ≡ is_numbered n (topology_name tables.now.nodes.now tables.now.pool.now i) }
{
    if ends_otherwise(tables, i, n) {
        return false;
    }
    let name = topology_name(tables, i);
    !matches!(name, TopologyName::Other) && topology_number(name) == n
}
