// SPDX-License-Identifier: BSD-2-Clause OR GPL-2.0-or-later
// Rules 7 and 8: each property.
ghost use Rattle.std.specs.Prelude.{◌≡◌};
ghost use Rattle.laws.specs.answers.Fault.{first_fault};
ghost use Rattle.laws.specs.answers.Told.{broken_in};
ghost use Rattle.tables.specs.facts.Board.{prop_count};
ghost use Rattle.records.specs.answers.Check.{sound_words, property_fault};

use crate::name::sound_name;
use crate::starts::{NO_START, PLACES, start_of};
use laws::limits::MAX_PROPERTY_NAME;
use laws::{Broken, Rule};
use tables::{is_inside, is_property, wide};

// Whether a property's words keep rule 7 on a board of `count` node records and a pool of so many bytes.
// Seven parameters, since the definition `sound_words` takes the words one by one; it has one caller.
fn sound_property(
    count: usize,
    bytes: usize,
    node: usize,
    name: usize,
    len: usize,
    value: usize,
    size: usize,
) -> bool
    ensures { result ≡ sound_words count bytes node name len value size }
{
    node < count && sound_name(bytes, MAX_PROPERTY_NAME, name, len) && is_inside(bytes, value, size)
}

// The lowest property that breaks rule 7 or repeats an earlier one.
pub fn first_property_fault(count: usize, props: &[u32], pool: &[u8]) -> Result<(), Broken>
    ensures { let table = props.now in
        broken_in result ≡ first_fault (property_fault count table pool.now) (prop_count table) }
{
    // No `first_broken`: a table is carried from turn to turn.
    let mut starts = [NO_START; PLACES];
    for k in 0..props.len() / 5 {
        // By index: the definition `property_fault` goes by k, and so does the search for an earlier one.
        let own = 5 * k;
        let node = wide(props[own]);
        let start = wide(props[own + 1]);
        let len = wide(props[own + 2]);
        let value = wide(props[own + 3]);
        let size = wide(props[own + 4]);
        if !sound_property(count, pool.len(), node, start, len, value, size) {
            return Err(Rule::PropertyRange.broken_at(k));
        }
        let name = &pool[start..start + len];
        for j in start_of(&mut starts, node, k)..k {
            if is_property(props, pool, node, name, j) {
                return Err(Rule::DuplicateProperty.broken_at(k));
            }
        }
    }
    Ok(())
}
