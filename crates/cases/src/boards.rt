// SPDX-License-Identifier: BSD-2-Clause OR GPL-2.0-or-later
// Boards, with a table of slots or without.
use crate::say::Told;
use crate::{input, say};
use affinity::Hash;
use demands::BoardRows;
use std::io;
use tables::Tables;

// Room for a record, a row or a slot more than the limits allow. Fixed memory, and counts beside it: there is no heap.
const ROOM: usize = 20485;

// Room for a byte more than the limit allows. Fixed memory, as above.
const POOL_ROOM: usize = 65537;

// What is asked of a board: its rows alone, or a table of slots, too. An enum, no bool: each call names what it asks.
#[derive(Clone, Copy)]
pub enum Asked {
    Rows,
    Slots,
}

// The node words, the property words and the pool, and what the row buffer holds before the board is read.
pub fn board(rt: &(impl Input + Print), asked: Asked) -> io::Result<()> {
    let mut nodes = [0u32; ROOM];
    let n = input::words(rt, &mut nodes);
    let mut props = [0u32; ROOM];
    let p = input::words(rt, &mut props);
    let mut pool = [0u8; POOL_ROOM];
    let b = input::bytes(rt, &mut pool);
    let mut rows = [0u32; ROOM];
    let r = input::words(rt, &mut rows);
    let tables = Tables {
        nodes: &nodes[..n],
        props: &props[..p],
        pool: &pool[..b],
    };
    read(rt, &tables, &mut rows[..r], asked)
}

// What the table of slots holds before the board is read, where one is asked for, and the width. All words of the buffer and of the table
// are written behind the answer.
fn read(
    rt: &(impl Input + Print),
    tables: &Tables,
    rows: &mut [u32],
    asked: Asked,
) -> io::Result<()> {
    let mut table = [0u32; ROOM];
    let t = match asked {
        Asked::Rows => 0,
        Asked::Slots => input::words(rt, &mut table),
    };
    let width = input::word(rt);
    let answer = match asked {
        Asked::Rows => board::read_tables(width, tables, rows),
        Asked::Slots => board::read_slots(width, tables, rows, &mut table[..t]),
    };
    let told = Told::from(answer);
    let found = answer.unwrap_or(BoardRows {
        count: 0,
        hash: Hash::default(),
    });
    say::answer(rt, told, found.count, found.hash)?;
    say::number(rt, told.second as u64)?;
    say::words(rt, rows)?;
    say::words(rt, &table[..t])
}
