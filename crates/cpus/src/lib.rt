// SPDX-License-Identifier: BSD-2-Clause OR GPL-2.0-or-later
// Cpu nodes: the cells of `/cpus`, the cpu records with their MPIDRs or hart ids and their phandles, and rules 9 to 13, 17, 36 and 37.
#![tactic(auto)]

mod node;
mod numbers;
mod property;
mod read;
mod root;

use laws::Refusal;
pub use node::is_cpu;
pub use numbers::read_numbers;
pub use property::cell_in;
pub use root::{count_fault, list_cpus, read_root};

// A value of one cell, or of two.
#[derive(Clone, Copy)]
pub enum Cells {
    One,
    Two,
}

// What is read of record 0: whether it keeps rules 9, 36 and 37, and the cells of the board's `reg`s, which `read_root` promises of a
// refused one, too.
#[derive(Clone, Copy)]
pub struct RootReading {
    pub checked: Result<(), Refusal>,
    pub cells: Cells,
}

// The number of each cpu record to gather: its `reg`, of so many cells on a board of a width, or its phandle. No closure: the definitions
// (`reading_from`) have these two cases.
#[derive(Clone, Copy)]
pub enum CpuNumbers {
    Regs { cells: Cells, width: u32 },
    Phandles,
}

// The number of a cpu record, and the property that is told of where an earlier record has the number, too.
#[derive(Clone, Copy)]
pub struct CpuNumber {
    pub value: u64,
    pub property: Option<usize>,
}
