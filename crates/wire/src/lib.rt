// SPDX-License-Identifier: BSD-2-Clause OR GPL-2.0-or-later
// Numbers in bytes, lowest byte first: words written, and numbers read.
#![tactic(auto)]

mod put;
mod read;

pub use put::put_words;
pub use read::number_at;

// The bytes of a word of 32 bits.
pub const WORD_BYTES: usize = 4;

// The bytes of a number of 64 bits.
pub const NUMBER_BYTES: usize = 8;
