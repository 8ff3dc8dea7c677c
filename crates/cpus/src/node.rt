// SPDX-License-Identifier: BSD-2-Clause OR GPL-2.0-or-later
// Cpu records: the children of record 0 named `cpu` or beginning `cpu@`.
ghost use Rattle.std.specs.Prelude.{◌≡◌};
ghost use Rattle.cpus.specs.answers.Check.{is_cpu_name, is_cpu};

use tables::{Tables, is_child, node_word, range_names};

// Whether a name is `cpu` or begins `cpu@`.
fn is_cpu_name(pool: &[u8], offset: usize, len: usize) -> bool
    ensures { result ≡ is_cpu_name pool.now offset len }
{
    if len < 4 {
        return range_names(pool, offset, len, b"cpu");
    }
    range_names(pool, offset, 4, b"cpu@")
}

// Whether record i is a cpu record.
pub fn is_cpu(tables: &Tables, i: usize) -> bool
    ensures { result ≡ is_cpu tables.now.nodes.now tables.now.pool.now i }
{
    let nodes = tables.nodes;
    is_child(nodes, 0, i)
        && is_cpu_name(tables.pool, node_word(nodes, i, 1), node_word(nodes, i, 2))
}
