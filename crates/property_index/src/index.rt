// SPDX-License-Identifier: BSD-2-Clause OR GPL-2.0-or-later
// The index of properties: for each of the first 1,024 records and each key, 0 or one more than the number of the property.
ghost use Rattle.std.specs.Prelude.{◌≡◌, ◌<◌};
ghost use Rattle.property_index.specs.facts.Index.{Indexes, FindsBy};
ghost use Rattle.property_index.specs.answers.Index.{noted, noted_key, indexed, indexed_at, AsLookup};

use crate::name::key_of;
use crate::{INDEX_WORDS, KEYS, Key};
use laws::limits::{MAX_NODES, MAX_PROPERTIES};
use tables::{Found, found_at, wide};

// Notes property k at a place where none is noted.
// A word is k + 1, or 0 for none, as the definition `noted` has it: an `Option<u16>` would take four bytes a word in place of two.
fn note(table: &mut [u16; INDEX_WORDS], at: usize, k: usize)
    requires { (at < 4096) × (k < 65535) }
    ensures { table.new ≡ noted table.old at k }
{
    if table[at] == 0 {
        table[at] = (k + 1) as u16;
    }
}

// Notes property k of a record, if its name is a key.
fn note_key(
    table: &mut [u16; INDEX_WORDS],
    pool: &[u8],
    node: usize,
    offset: usize,
    len: usize,
    k: usize,
)
    requires { k < 65535 }
    ensures { table.new ≡ noted_key table.old pool.now node offset len k }
{
    if MAX_NODES <= node {
        return;
    }
    if let Some(key) = key_of(pool, offset, len) {
        note(table, KEYS * node + key.number(), k);
    }
}

// Notes in a table, made of zeros, where the keys of each record stand.
pub fn index_properties(props: &[u32], pool: &[u8], table: &mut [u16; INDEX_WORDS])
    ensures table { table.new ≡ indexed table.old props.now pool.now }
    ensures index { Indexes table.old props.now pool.now table.new }
{
    for (k, words) in props.chunks_exact(5).take(MAX_PROPERTIES).enumerate() {
        note_key(
            table,
            pool,
            wide(words[0]),
            wide(words[1]),
            wide(words[2]),
            k,
        );
    }
}

// The property that is a key of record i.
pub fn find_indexed(props: &[u32], table: &[u16; INDEX_WORDS], i: usize, key: Key) -> Option<Found>
    ensures answer { result ≡ indexed_at props.now table.now i key }
    ensures as_lookup { AsLookup props.now table.now i key result }
    ensures finds { FindsBy props.now table.now i key result }
{
    if MAX_NODES <= i {
        return None;
    }
    let k = usize::from(table[KEYS * i + key.number()]).checked_sub(1)?;
    Some(found_at(props, k))
}
