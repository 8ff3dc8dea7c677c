// SPDX-License-Identifier: BSD-2-Clause OR GPL-2.0-or-later
// Writing one record.
ghost use Rattle.std.specs.Prelude.{◌≡◌, ◌++◌, ◌+◌, ◌*◌, ◌^◌, ◌<◌, ◌≤◌, All, length, take, drop};

// Writes record n of a table.
pub fn put_record<const WORDS: usize>(table: &mut [u32], n: usize, words: [usize; WORDS])
    requires place { WORDS * n + WORDS ≤ length table.old }
    requires words { All (λ word. word < 2 ^ 32) words }
    ensures { let old = table.old in
        table.new ≡ take (WORDS * n) old ++ words.entry ++ drop (WORDS * n + WORDS) old }
{
    let start = WORDS * n;
    // An index, no `zip` with `iter_mut`: that was tried, and a proof then knows nothing of the cells written.
    for (k, word) in words.iter().enumerate() {
        table[start + k] = *word as u32;
    }
}
