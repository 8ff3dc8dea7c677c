// SPDX-License-Identifier: BSD-2-Clause OR GPL-2.0-or-later
// The rows of a board: one for each leaf, written into a lent buffer.
#![tactic(auto)]

mod leaf;
mod slots;
mod write;

use affinity::Hash;
use cpumap::Position;
pub use slots::slots_for;
pub use write::write_rows;

// What the rows are made of: the cpu records and their `reg`s, the leaves, and for each the index of the cpu record that it names.
// Side by side in lent arrays: there is no heap, and an array of pairs would take 8 bytes more for each cpu.
#[derive(Clone, Copy)]
pub struct Lists<'a> {
    pub cpus: &'a [u16],
    pub regs: &'a [u64],
    pub leaves: &'a [u16],
    pub named: &'a [u16],
}

// A node record and its position.
#[derive(Clone, Copy)]
struct Placed {
    pub node: usize,
    pub position: Position,
}

// How the slots of a board are made: by its number, and by the hash of its MPIDRs. No Option of a hash: `slots_for` promises the hash of
// every width.
#[derive(Clone, Copy)]
pub struct BoardSlots {
    pub width: u32,
    pub hash: Hash,
}

// A cpu that a leaf names: its record, its `reg` and its slot.
#[derive(Clone, Copy)]
struct NamedCpu {
    pub cpu: usize,
    pub reg: u64,
    pub slot: u32,
}
