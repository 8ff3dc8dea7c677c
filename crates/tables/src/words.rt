// SPDX-License-Identifier: BSD-2-Clause OR GPL-2.0-or-later
// The words of the node and property records.
ghost use Rattle.std.specs.Prelude.{◌≡◌, ◌+◌, ◌*◌, get_or};

// A word as an index. A cast: Rust has no From<u32> for usize.
pub fn wide(word: u32) -> usize
    ensures { result ≡ word }
{
    word as usize
}

// A word of record i, each of so many words, 0 outside the table, as the definitions have it. A place that would wrap is outside every table, as is the largest.
#[inline(always)]
fn record_word<const WORDS: usize>(table: &[u32], i: usize, field: usize) -> usize
    ensures { result ≡ get_or table.now (WORDS * i + field) 0 }
{
    // A word of a whole record is read at once.
    if field < WORDS && i < table.len() / WORDS {
        return wide(table[WORDS * i + field]);
    }
    let at = i.saturating_mul(WORDS).saturating_add(field);
    match table.get(at) {
        Some(word) => wide(*word),
        None => 0,
    }
}

// A word of node record i, 0 outside the table.
#[inline(always)]
pub fn node_word(nodes: &[u32], i: usize, field: usize) -> usize
    ensures { result ≡ get_or nodes.now (3 * i + field) 0 }
{
    record_word::<3>(nodes, i, field)
}

// A word of property record k, 0 outside the table.
#[inline(always)]
pub fn prop_word(props: &[u32], k: usize, field: usize) -> usize
    ensures { result ≡ get_or props.now (5 * k + field) 0 }
{
    record_word::<5>(props, k, field)
}
