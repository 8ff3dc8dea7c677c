// SPDX-License-Identifier: BSD-2-Clause OR GPL-2.0-or-later
// Check, room, write: what the reading calls have in common.
ghost use Rattle.std.specs.Prelude.{◌≡◌, length};
ghost use Rattle.laws.specs.answers.Told.{number_in};
ghost use Rattle.tables.specs.facts.Board.{board_of};
ghost use Rattle.cpus.specs.answers.Check.{cpu_count};
ghost use Rattle.rows.specs.answers.Slots.{slots_for, board_hash};
ghost use Rattle.rows.specs.answers.Write.{source_in, source_of};
ghost use Rattle.demands.specs.answers.Told.{board_told};
ghost use Rattle.demands.specs.answers.Answer.{answer_by, rows_by};
ghost use Rattle.board.specs.steps.Read.{rooms_number, written_fault, read_fault};

use crate::Arrays;
use crate::survey::survey;
use demands::BoardRows;
use laws::{Refusal, Rule};
use layout::ROW_WORDS;
use rows::Lists;
use tables::Tables;

// Rule 27 for so many cpu records and a row buffer of so many words; then 38 and 39 where a table of so many entries is asked for.
fn check_rooms(cpus: usize, room: usize, entries: Option<usize>, bits: u32) -> Result<(), Rule>
    ensures { number_in result ≡ rooms_number cpus room entries bits }
{
    if room / ROW_WORDS < cpus {
        return Err(Rule::RowSpace);
    }
    match entries {
        Some(entries) => slot_table::entries_fault(bits, entries),
        None => Ok(()),
    }
}

// Writes the rows of a surveyed board where `room` words of the buffer, and a table of slots if one is asked for, are enough.
pub fn write(
    width: u32,
    tables: &Tables,
    lists: &Lists,
    rows: &mut [u32],
    room: usize,
    entries: Option<usize>,
) -> Result<BoardRows, Refusal>
    ensures answer { let cpus = length lists.now.cpus.now in
        let slots = slots_for width lists.now.regs.now in
        board_told result ≡ answer_by (written_fault cpus room entries slots.hash.bits) cpus slots.hash }
    ensures rows { let slots = slots_for width lists.now.regs.now in
        let fault = written_fault (length lists.now.cpus.now) room entries slots.hash.bits in
        rows.new ≡ rows_by fault (source_in tables.now lists.now slots) rows.old }
{
    let count = lists.cpus.len();
    let slots = rows::slots_for(width, lists.regs);
    check_rooms(count, room, entries, slots.hash.bits)?;
    rows::write_rows(rows, tables, lists, slots);
    Ok(BoardRows {
        count,
        hash: slots.hash,
    })
}

// Reads a board's tables: the rows are written where no rule is broken.
pub fn read(
    width: u32,
    tables: &Tables,
    rows: &mut [u32],
    entries: Option<usize>,
) -> Result<BoardRows, Refusal>
    ensures answer { let b = board_of width tables.now in
        board_told result ≡ answer_by (read_fault b (length rows.old) entries) (cpu_count b) (board_hash b) }
    ensures rows { let b = board_of width tables.now in
        rows.new ≡ rows_by (read_fault b (length rows.old) entries) (source_of b) rows.old }
{
    let mut arrays = Arrays::empty();
    let counts = survey(width, tables, &mut arrays)?;
    let lists = arrays.listed(counts);
    let room = rows.len();
    write(width, tables, &lists, rows, room, entries)
}
