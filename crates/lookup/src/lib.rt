// SPDX-License-Identifier: BSD-2-Clause OR GPL-2.0-or-later
// Finding a property of a record by its name: a search of the property table that ends at its match.
#![tactic(auto)]

ghost use Rattle.std.specs.Prelude.{◌≡◌};
ghost use Rattle.tables.specs.answers.Lookup.{lookup};
ghost use Rattle.lookup.specs.facts.Finds.{FindsIn};

use tables::{Found, found_at, is_property};

// The lowest property record of a node with the name `key`.
pub fn find_property(props: &[u32], pool: &[u8], node: usize, key: &[u8]) -> Option<Found>
    ensures answer { result ≡ lookup props.now pool.now node key.now }
    ensures finds { FindsIn props.now pool.now node key.now result }
{
    for k in 0..props.len() / 5 {
        if is_property(props, pool, node, key, k) {
            return Some(found_at(props, k));
        }
    }
    None
}
