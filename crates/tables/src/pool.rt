// SPDX-License-Identifier: BSD-2-Clause OR GPL-2.0-or-later
// Ranges of the pool: whether one lies inside it, what it holds, and the cell at a byte.
ghost use Rattle.std.specs.Prelude.{◌≡◌, ◌+◌, false, leb};
ghost use Rattle.laws.specs.answers.Same.{same_list};
ghost use Rattle.tables.specs.answers.Range.{range_is};
ghost use Rattle.tables.specs.facts.Property.{cell_at};

// Whether a range lies inside a pool of so many bytes. The sum of offset and length is not formed: it may wrap. The two are no struct, since
// callers have them as words of a record and would put them together for this call.
pub fn is_inside(bytes: usize, offset: usize, len: usize) -> bool
    ensures { result ≡ leb (offset + len) bytes }
{
    offset <= bytes && len <= bytes - offset
}

// Whether two strings of bytes end alike. Names that begin alike often end apart, so this is asked first.
fn same_last(a: &[u8], b: &[u8]) -> bool
    ensures { result ≡ false → same_list a.now b.now ≡ false }
{
    match (a.last(), b.last()) {
        (Some(x), Some(y)) => x == y,
        _ => true,
    }
}

// Whether a range lies inside the pool and holds the given bytes.
pub fn range_is(pool: &[u8], offset: usize, len: usize, bytes: &[u8]) -> bool
    ensures { result ≡ range_is pool.now offset len bytes.now }
{
    if len != bytes.len() {
        return false;
    }
    if !is_inside(pool.len(), offset, len) {
        return false;
    }
    let part = &pool[offset..offset + len];
    same_last(part, bytes) && part == bytes
}

// The same for a name that is known when the code is compiled: its bytes are compared at once, as an array.
pub fn range_names<const N: usize>(pool: &[u8], offset: usize, len: usize, name: &[u8; N]) -> bool
    ensures { result ≡ range_is pool.now offset len name.now }
{
    if len != N {
        return false;
    }
    let Some(rest) = pool.get(offset..) else {
        return false;
    };
    let Some(bytes) = rest.first_chunk::<N>() else {
        return false;
    };
    bytes == name
}

// The cell that starts at a byte of the pool, 0 where it leaves the pool, as its definition has it.
pub fn cell_at(pool: &[u8], at: usize) -> u32
    ensures { result ≡ cell_at pool.now at }
{
    if pool.len() < 4 {
        return 0;
    }
    if pool.len() - 4 < at {
        return 0;
    }
    // By index, and no `first_chunk`, which tests once more that there are four.
    u32::from_be_bytes([pool[at], pool[at + 1], pool[at + 2], pool[at + 3]])
}
