// SPDX-License-Identifier: BSD-2-Clause OR GPL-2.0-or-later
// The table from slots to rows: whether a table may be filled (38 and 39), and filling it.
#![tactic(auto)]

mod fill;

ghost use Rattle.std.specs.Prelude.{◌≡◌};
ghost use Rattle.laws.specs.answers.Told.{number_in};
ghost use Rattle.slot_table.specs.answers.Table.{entries_fault};

pub use fill::fill_table;
use laws::Rule;
use laws::limits::MAX_TABLE_BITS;

// The first of rules 38 and 39 that is broken, of a hash of so many bits and a table of so many entries.
pub fn entries_fault(bits: u32, entries: usize) -> Result<(), Rule>
    ensures { number_in result ≡ entries_fault bits entries }
{
    if bits > MAX_TABLE_BITS {
        return Err(Rule::SlotTableBits);
    }
    if entries < 1 << bits {
        return Err(Rule::SlotTableSpace);
    }
    Ok(())
}
