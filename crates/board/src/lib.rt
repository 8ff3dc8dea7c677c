// SPDX-License-Identifier: BSD-2-Clause OR GPL-2.0-or-later
// The board reader: a board's tables in, rows and save slots out, or the first rule broken, where, and of which property.
#![tactic(auto)]

mod in_place;
mod read;
mod sized;
mod survey;

ghost use Rattle.std.specs.Prelude.{◌≡◌, ◌≤◌, length};
ghost use Rattle.tables.specs.facts.Board.{board_of};
ghost use Rattle.demands.specs.answers.Told.{board_told};
ghost use Rattle.demands.specs.answers.Answer.{answer_of, rows_after};
ghost use Rattle.demands.specs.answers.Slots.{slots_answer, slots_rows, slots_table};
ghost use Rattle.demands.specs.facts.Reading.{Demands};
ghost use Rattle.demands.specs.facts.Slots.{SlotTableDemands};
ghost use Rattle.board.specs.steps.Survey.{zeros, IsListed};

use demands::BoardRows;
pub use in_place::read_in_place;
use laws::Refusal;
use laws::limits::MAX_CPUS;
use layout::ROW_WORDS;
use read::read;
use rows::Lists;
use sized::tables_sized;
use tables::Tables;

// What a survey counts: the cpu records and the leaves.
#[derive(Clone, Copy)]
struct Counts {
    pub cpus: usize,
    pub leaves: usize,
}

// Room for what the rows are made of: a count says how much of an array is a list, since there is no heap.
#[derive(Drop)]
struct Arrays {
    pub cpus: [u16; MAX_CPUS],
    pub regs: [u64; MAX_CPUS],
    pub leaves: [u16; MAX_CPUS],
    pub named: [u16; MAX_CPUS],
}

impl Arrays {
    fn empty() -> Self
        ensures { result ≡ zeros }
    {
        Self {
            cpus: [0; MAX_CPUS],
            regs: [0; MAX_CPUS],
            leaves: [0; MAX_CPUS],
            named: [0; MAX_CPUS],
        }
    }

    // The lists that a survey counted.
    fn listed(&self, counts: Counts) -> Lists
        requires { (counts.cpus ≤ 256) × (counts.leaves ≤ 256) }
        ensures { IsListed self.now counts result }
    {
        Lists {
            cpus: &self.cpus[..counts.cpus],
            regs: &self.regs[..counts.cpus],
            leaves: &self.leaves[..counts.leaves],
            named: &self.named[..counts.leaves],
        }
    }
}

// Reads a board's tables.
pub fn read_tables(width: u32, tables: &Tables, rows: &mut [u32]) -> Result<BoardRows, Refusal>
    ensures answer { board_told result ≡ answer_of (board_of width tables.now) (length rows.old) }
    ensures rows { rows.new ≡ rows_after (board_of width tables.now) rows.old }
    ensures demands { Demands (board_of width tables.now) rows.old (board_told result) rows.new }
{
    tables_sized(width, tables);
    read(width, tables, rows, None)
}

// Reads a board's tables, and fills a table of slots.
pub fn read_slots(
    width: u32,
    tables: &Tables,
    rows: &mut [u32],
    table: &mut [u32],
) -> Result<BoardRows, Refusal>
    ensures answer { let b = board_of width tables.now in
        board_told result ≡ slots_answer b (length rows.old) (length table.old) }
    ensures rows { let b = board_of width tables.now in
        rows.new ≡ slots_rows b rows.old (length table.old) }
    ensures table { let b = board_of width tables.now in
        table.new ≡ slots_table b rows.old table.old }
    ensures demands { let b = board_of width tables.now in
        SlotTableDemands b rows.old table.old (board_told result) rows.new table.new }
{
    tables_sized(width, tables);
    let entries = Some(table.len());
    let found = read(width, tables, rows, entries)?;
    let words = ROW_WORDS * found.count;
    slot_table::fill_table(table, &rows[..words], found.hash.bits);
    Ok(found)
}
