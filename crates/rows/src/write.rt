// SPDX-License-Identifier: BSD-2-Clause OR GPL-2.0-or-later
// Writing rows: each into its own words of the lent buffer.
ghost use Rattle.std.specs.Prelude.{◌≡◌, get_or};
ghost use Rattle.rows.specs.steps.Position.{placed};
ghost use Rattle.rows.specs.answers.Write.{named_cpu, written, source_in};

use crate::leaf::row_of;
use crate::slots::slot_by;
use crate::{BoardSlots, Lists, NamedCpu, Placed};
use cpumap::position_of;
use layout::{ROW_WORDS, put_row};
use tables::{Tables, node_word};

// An element of a list, 0 outside it, as the definition `named_cpu` has it.
fn record_at(list: &[u16], k: usize) -> usize
    ensures { result ≡ get_or list.now k 0 }
{
    list.get(k).copied().map_or(0, usize::from)
}

// Record p and its position, given another record with its own.
fn placed_at(tables: &Tables, p: usize, last: Placed) -> Placed
    requires { last ≡ placed tables.now.nodes.now tables.now.pool.now last.node }
    ensures { result ≡ placed tables.now.nodes.now tables.now.pool.now p }
{
    if p == last.node {
        return last;
    }
    Placed {
        node: p,
        position: position_of(tables, p),
    }
}

// The cpu at an index of the cpu records and their `reg`s, with its slot. What a list does not have is 0, as the definition has it.
fn named_cpu(lists: &Lists, index: usize, slots: BoardSlots) -> NamedCpu
    ensures { result ≡ named_cpu lists.now.cpus.now lists.now.regs.now index slots }
{
    let reg = lists.regs.get(index).copied().unwrap_or(0);
    NamedCpu {
        cpu: record_at(lists.cpus, index),
        reg,
        slot: slot_by(slots, reg),
    }
}

// Writes a row for each leaf; nothing where there is no room for all of them.
pub fn write_rows(rows: &mut [u32], tables: &Tables, lists: &Lists, slots: BoardSlots)
    ensures { rows.new ≡ written (source_in tables.now lists.now slots) rows.old }
{
    if rows.len() / ROW_WORDS < lists.leaves.len() {
        return;
    }
    let mut above = Placed {
        node: 0,
        position: position_of(tables, 0),
    };
    // By index, since of what `chunks_exact_mut` lent a proof knows only the length.
    for k in 0..lists.leaves.len() {
        let leaf = usize::from(lists.leaves[k]);
        above = placed_at(tables, node_word(tables.nodes, leaf, 0), above);
        let index = record_at(lists.named, k);
        let cpu = named_cpu(lists, index, slots);
        let row = row_of(tables, above, leaf, cpu);
        put_row(&mut rows[ROW_WORDS * k..], row);
    }
}
