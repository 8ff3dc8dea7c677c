// SPDX-License-Identifier: BSD-2-Clause OR GPL-2.0-or-later
// The properties that are looked up for many records: where each stands, noted in one pass over the property table.
#![tactic(auto)]

ghost use Rattle.std.specs.Prelude.{◌≡◌};
ghost use Rattle.property_index.specs.facts.Key.{key_number};

mod index;
mod name;

pub use index::{find_indexed, index_properties};

// The properties that are looked up, each with its place among the four.
#[derive(Clone, Copy, PartialEq, Eq)]
pub enum Key {
    Reg = 0,
    Cpu = 1,
    Phandle = 2,
    DeviceType = 3,
}

impl Key {
    fn number(self) -> usize
        ensures { result ≡ key_number self }
    {
        self as usize
    }
}

// How many keys there are.
const KEYS: usize = 4;

// The words of an index of properties: four for each of 1,024 records. The array is lent beside the tables, since there is no heap; a struct
// of both would be no plainer: clauses would speak of `indexed.now.tables.now.props.now`.
pub const INDEX_WORDS: usize = 4096;
