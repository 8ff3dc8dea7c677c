// SPDX-License-Identifier: BSD-2-Clause OR GPL-2.0-or-later
// The layout of rows: twelve words for each leaf, one row behind the other.
#![tactic(auto)]

ghost use Rattle.std.specs.Prelude.{◌≡◌};
ghost use Rattle.layout.specs.answers.Words.{with_row};

// The words of a row.
pub const ROW_WORDS: usize = 12;

// The word of a row that holds its slot.
pub const SLOT_WORD: usize = 11;

// What a row holds where the map states nothing: a word that C reads.
pub const GAP: u32 = 0xFFFFFFFF;

// What a row holds, in the order of its words.
#[derive(Clone, Copy)]
pub struct Row {
    pub leaf: u32,
    pub cpu: u32,
    pub upper: u32,
    pub lower: u32,
    pub socket: u32,
    pub path: [u32; 4],
    pub core: u32,
    pub thread: u32,
    pub slot: u32,
}

// Writes a row at the start of a part of a row buffer. A part shorter than a row stays as it is.
pub fn put_row(part: &mut [u32], row: Row)
    ensures { part.new ≡ with_row row part.old }
{
    if part.len() < ROW_WORDS {
        return;
    }
    // One by one, so that each word is seen with its number.
    part[0] = row.leaf;
    part[1] = row.cpu;
    part[2] = row.upper;
    part[3] = row.lower;
    part[4] = row.socket;
    part[5] = row.path[0];
    part[6] = row.path[1];
    part[7] = row.path[2];
    part[8] = row.path[3];
    part[9] = row.core;
    part[10] = row.thread;
    part[11] = row.slot;
}
