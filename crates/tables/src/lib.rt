// SPDX-License-Identifier: BSD-2-Clause OR GPL-2.0-or-later
// A board's three tables, read without trusting them: records, ancestors, ranges of the pool, properties; and the value of `device_type`
// that a cpu has.
// A record, a property or a name stands beside the tables, or beside the one table that is read, as definitions have them. A struct of both
// would be made anew on each turn of a loop.
#![tactic(auto)]

pub mod binding;
pub mod boards;
mod pool;
mod property;
mod tree;
mod words;

pub use pool::{cell_at, is_inside, range_is, range_names};
pub use property::{found_at, is_property, record_of};
pub use tree::{is_below, is_child, name_is, parent_of};
pub use words::{node_word, prop_word, wide};

// The three tables. The width is apart, since most of what reads tables does not ask for it.
#[derive(Clone, Copy)]
pub struct Tables<'a> {
    pub nodes: &'a [u32],
    pub props: &'a [u32],
    pub pool: &'a [u8],
}

// A property that was found: the number of its record, and where its value stands in the pool.
#[derive(Clone, Copy)]
pub struct Found {
    pub number: usize,
    pub offset: usize,
    pub len: usize,
}
