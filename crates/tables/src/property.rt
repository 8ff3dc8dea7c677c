// SPDX-License-Identifier: BSD-2-Clause OR GPL-2.0-or-later
// Property records: whether one is looked for, what is found of it, and its number.
ghost use Rattle.std.specs.Prelude.{◌≡◌, option_map};
ghost use Rattle.laws.specs.answers.Told.{second_of};
ghost use Rattle.tables.specs.facts.Property.{found_at};
ghost use Rattle.tables.specs.answers.Lookup.{is_property, record_of};

use crate::Found;
use crate::pool::range_is;
use crate::words::prop_word;

// Whether property record k is the node's and has the name `key`. Inlined, so that a loop over records tests once that they are in the table.
#[inline(always)]
pub fn is_property(props: &[u32], pool: &[u8], node: usize, key: &[u8], k: usize) -> bool
    ensures { result ≡ is_property props.now pool.now node key.now k }
{
    prop_word(props, k, 0) == node
        && range_is(pool, prop_word(props, k, 1), prop_word(props, k, 2), key)
}

// Property record k as it is found.
pub fn found_at(props: &[u32], k: usize) -> Found
    ensures { result ≡ found_at props.now k }
{
    Found {
        number: k,
        offset: prop_word(props, k, 3),
        len: prop_word(props, k, 4),
    }
}

// The number of the record that was found: what is told of it, too.
pub fn record_of(found: Option<Found>) -> Option<usize>
    ensures record { second_of result ≡ record_of found }
    ensures number { result ≡ option_map (λ property. property.number) found }
{
    found.map(|property| property.number)
}
