// SPDX-License-Identifier: BSD-2-Clause OR GPL-2.0-or-later
// The header of a flattened devicetree: rules 31 and 32, and where its two blocks stand.
#![tactic(auto)]

mod blocks;
mod fault;

pub use blocks::{block_places, blocks_fault};
pub use fault::header_fault;

// Where the structure block begins, and its size; where the strings block begins, and its size.
#[derive(Clone, Copy)]
pub struct BlockPlaces {
    pub start: usize,
    pub size: usize,
    pub strings: usize,
    pub names: usize,
}
