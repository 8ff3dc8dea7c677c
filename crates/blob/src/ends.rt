// SPDX-License-Identifier: BSD-2-Clause OR GPL-2.0-or-later
// The ends of names in a strings block. A table has, for each run of 512 bytes, the first zero byte from its start on: so the end of any name is
// found within 512 bytes, however long the name is, and names that overlap cost no more than others.
ghost use Rattle.std.specs.Prelude.{◌≡◌, ◌+◌, ◌/◌, ◌≤◌, length};
ghost use Rattle.tokens.specs.answers.Read.{zero_from};
ghost use Rattle.blob.specs.steps.Ends.{EndsFrom};

use tokens::zero_from;

const RUN_BYTES: usize = 512;

// Runs of the longest strings block.
pub const MAX_RUNS: usize = 128;

// The first zero byte from a place on, or the end of the bytes. The table is right for the runs behind that of the place.
// Where no byte is zero the answer is the length, no Option: the definition zero_from has it so.
pub fn name_end(bytes: &[u8], ends: &[u32; MAX_RUNS], at: usize) -> usize
    requires size { length bytes.now ≤ 65536 }
    requires ends { EndsFrom bytes.now ends.now (at / 512 + 1) }
    ensures { result ≡ zero_from bytes.now at }
{
    if bytes.len() <= at {
        return at;
    }
    let edge = ((at / RUN_BYTES + 1) * RUN_BYTES).min(bytes.len());
    let stop = zero_from(&bytes[..edge], at);
    if stop < edge {
        return stop;
    }
    if edge == bytes.len() {
        return edge;
    }
    tables::wide(ends[edge / RUN_BYTES])
}

// Fills the table, from the last run to the first.
pub fn note_ends(bytes: &[u8], ends: &mut [u32; MAX_RUNS])
    requires { (length bytes.now ≤ 65536) × (length ends.old ≡ 128) }
    ensures { EndsFrom bytes.now ends.new 0 }
{
    let runs = bytes.len().div_ceil(RUN_BYTES);
    for k in (0..runs).rev() {
        let end = name_end(bytes, ends, k * RUN_BYTES);
        ends[k] = end as u32;
    }
}
