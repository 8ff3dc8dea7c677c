// SPDX-License-Identifier: BSD-2-Clause OR GPL-2.0-or-later
// Reading standard input. A word has four bytes, big-endian; in front of a table's elements stands a word that says how many follow. Bytes
// behind the end of the input, or behind a read that failed, are 0.
ghost use Rattle.std.specs.Prelude.{◌≡◌, ◌≤◌, length, take};

use std::io::Read;

// Fills bytes as far as the input goes; those behind its end, or behind a read that failed, stay as they were.
fn fill(rt: &impl Input, bytes: &mut [u8]) {
    let mut at: usize = 0;
    // A read gives as many bytes as it will: no index is counted.
    while at < bytes.len() {
        match rt.reader().read(&mut bytes[at..]) {
            Ok(0) => return,
            Ok(count) => at += count,
            Err(_) => return,
        }
    }
}

pub fn word(rt: &impl Input) -> u32 {
    let mut bytes = [0u8; 4];
    fill(rt, &mut bytes);
    u32::from_be_bytes(bytes)
}

// The upper word stands first.
pub fn mpidr(rt: &impl Input) -> u64 {
    let mut bytes = [0u8; 8];
    fill(rt, &mut bytes);
    u64::from_be_bytes(bytes)
}

// How many elements of a table are read: those that follow, as far as there is room.
pub fn count(rt: &impl Input, room: usize) -> usize
    ensures { result ≤ room }
{
    room.min(word(rt) as usize)
}

// Fills the start of a table, and gives how many words it has put there.
pub fn words(rt: &impl Input, table: &mut [u32]) -> usize
    ensures within { result ≤ length table.new }
    ensures whole { result ≡ length (take result table.new) }
{
    let count = count(rt, table.len());
    for cell in &mut table[..count] {
        *cell = word(rt);
    }
    count
}

// The same for bytes, which are read at once.
pub fn bytes(rt: &impl Input, table: &mut [u8]) -> usize
    ensures within { result ≤ length table.new }
    ensures whole { result ≡ length (take result table.new) }
{
    let count = count(rt, table.len());
    fill(rt, &mut table[..count]);
    count
}
