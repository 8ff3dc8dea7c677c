// SPDX-License-Identifier: BSD-2-Clause OR GPL-2.0-or-later
// What the types of the tables say of their numbers, as facts. Nothing here runs.
ghost use Rattle.std.specs.Prelude.{ℕ, ◌<◌, ◌^◌, get_or};
ghost use Rattle.tables.specs.facts.Board.{WordSized, board_of};

use tables::Tables;

// Words have 32 bits.
fn word_sized(words: &[u32])
    ensures { (i : ℕ) → get_or words.now i 0 < 2 ^ 32 }
{}

// Bytes have 8 bits. A function of its own: the bound goes with the type.
fn byte_sized(bytes: &[u8])
    ensures { (i : ℕ) → get_or bytes.now i 0 < 256 }
{}

// The tables of a board hold words and bytes.
pub fn tables_sized(width: u32, tables: &Tables)
    ensures { WordSized (board_of width tables.now) }
{
    word_sized(tables.nodes);
    word_sized(tables.props);
    byte_sized(tables.pool);
}
