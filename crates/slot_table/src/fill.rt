// SPDX-License-Identifier: BSD-2-Clause OR GPL-2.0-or-later
// Filling a table: gaps first, and then each row at its slot.
ghost use Rattle.std.specs.Prelude.{◌≡◌, ◌≤◌, ◌/◌, length};
ghost use Rattle.layout.specs.facts.Row.{row_size, slot_at};
ghost use Rattle.slot_table.specs.answers.Table.{entered_below, filled};
ghost use Rattle.slot_table.specs.facts.SlotTable.{Tabled};

use crate::entries_fault;
use layout::{GAP, ROW_WORDS, SLOT_WORD};

// Enters the number of each row at its slot, where that is below the size.
fn enter_rows(table: &mut [u32], rows: &[u32], size: usize)
    requires { size ≤ length table.old }
    ensures { table.new
        ≡ entered_below (slot_at rows.now) size (length rows.now / row_size) table.old }
{
    for (k, row) in rows.chunks_exact(ROW_WORDS).enumerate() {
        // A cast: Rust has no From<u32> for usize, and tables with its `wide` is not below this crate.
        let slot = row[SLOT_WORD] as usize;
        if slot < size {
            // An `as` takes no number that does not fit; the definition `entered_below` has the remainder.
            table[slot] = (k % 4294967296) as u32;
        }
    }
}

// Fills the table of whole rows whose hash has so many bits; nothing where rule 38 or 39 is broken.
pub fn fill_table(table: &mut [u32], rows: &[u32], bits: u32)
    ensures table { table.new ≡ filled rows.now bits table.old }
    ensures tabled { Tabled rows.now bits table.old table.new }
{
    if entries_fault(bits, table.len()).is_err() {
        return;
    }
    let size: usize = 1 << bits;
    table[..size].fill(GAP);
    enter_rows(table, rows, size);
}
