// SPDX-License-Identifier: BSD-2-Clause OR GPL-2.0-or-later
// Reading a board whose property table is given up for the rows.
ghost use Rattle.std.specs.Prelude.{◌≡◌, min, length, take};
ghost use Rattle.tables.specs.facts.Board.{board};
ghost use Rattle.rows.specs.answers.Write.{source_of};
ghost use Rattle.demands.specs.answers.Told.{board_told};
ghost use Rattle.demands.specs.answers.Answer.{board_fault, answer_of, rows_by};

use crate::Arrays;
use crate::read::write;
use crate::survey::survey;
use demands::BoardRows;
use laws::Refusal;
use tables::Tables;

// Reads a board's tables, for a row buffer of `room` words elsewhere. The first `words` words of `table` are the property table; where no rule
// is broken the rows are written over it. A count beside the table, since the rows may need more of it: there is no heap.
pub fn read_in_place(
    width: u32,
    nodes: &[u32],
    table: &mut [u32],
    words: usize,
    pool: &[u8],
    room: usize,
) -> Result<BoardRows, Refusal>
    ensures answer { let b = board width nodes.now (take words table.old) pool.now in
        board_told result ≡ answer_of b (min room (length table.old)) }
    ensures rows { let b = board width nodes.now (take words table.old) pool.now in
        let fault = board_fault b (min room (length table.old)) in
        table.new ≡ rows_by fault (source_of b) table.old }
{
    let size = table.len();
    let held = size.min(words);
    let mut arrays = Arrays::empty();
    let props = &table[..held];
    let tables = Tables { nodes, props, pool };
    let counts = survey(width, &tables, &mut arrays)?;
    let lists = arrays.listed(counts);
    // The rows are written over the properties, of which none is read again.
    let props = &[];
    let tables = Tables { nodes, props, pool };
    write(width, &tables, &lists, table, room.min(size), None)
}
