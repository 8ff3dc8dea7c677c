// SPDX-License-Identifier: BSD-2-Clause OR GPL-2.0-or-later
// The cpu map: its place, rules 15 and 16; what its records' names say; and where a record stands: its socket and clusters.
// A record is a number, no struct with its tables: the definitions name it so, and loops step it. The map is found once, for two crates' functions.
#![tactic(auto)]

mod find;
mod number;
mod numbered;
mod path;
mod positions;

pub use find::find_map;
pub use number::{kind_number, topology_number};
pub use numbered::has_number;
pub use path::topology_name;
pub use positions::position_of;

// A cluster path: four numbers, outermost first, 0xFFFFFFFF where unused, and how many are used.
// An array with a length beside it, and 0xFFFFFFFF in what is unused, as the row has its four words: fixed memory without a heap.
#[derive(Clone, Copy)]
pub struct ClusterPath {
    pub numbers: [u32; 4],
    pub depth: usize,
}

// What a record and its ancestors say: the number of their socket, 0xFFFFFFFF where there is none, and their clusters.
// A number for none, and no Option: it is the word of the row that C reads.
#[derive(Clone, Copy)]
pub struct Position {
    pub socket: u32,
    pub clusters: ClusterPath,
}
