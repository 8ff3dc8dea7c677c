// SPDX-License-Identifier: BSD-2-Clause OR GPL-2.0-or-later
// The reading call that fills a table of slots, too.
ghost use Rattle.std.specs.Prelude.{◌≡◌, ◌≤◌, length};
ghost use Rattle.tables.specs.facts.Board.{board};
ghost use Rattle.demands.specs.answers.Slots.{slots_answer};
ghost use Rattle.demands.specs.facts.Slots.{SlotTableDemands};
ghost use Rattle.sunderwath.specs.answers.Answer.{answer_size, or_short, answer_after};
ghost use Rattle.sunderwath.specs.answers.Board.{board_words, slots_rows_behind, slots_table_behind};

use crate::answer::{ANSWER_SHORT, ANSWER_WORDS, put_board};
use tables::Tables;

// Reads a board's tables: rows, table of slots and answer, or the first rule broken.
#[unsafe(no_mangle)]
pub extern "C" fn sunderwath_read_tables_slots(
    width: u32,
    nodes: &[u32],
    props: &[u32],
    pool: &[u8],
    rows: &mut [u32],
    table: &mut [u32],
    answer: &mut [u32],
) -> u32
    ensures number { let b = board width nodes.now props.now pool.now in
        let found = slots_answer b (length rows.old) (length table.old) in
        result ≡ or_short answer.old found.number }
    ensures rows { let b = board width nodes.now props.now pool.now in
        rows.new ≡ slots_rows_behind answer.old b rows.old table.old }
    ensures table { let b = board width nodes.now props.now pool.now in
        table.new ≡ slots_table_behind answer.old b rows.old table.old }
    ensures answer { let b = board width nodes.now props.now pool.now in
        let found = slots_answer b (length rows.old) (length table.old) in
        answer.new ≡ answer_after answer.old (board_words found) }
    ensures demands { let b = board width nodes.now props.now pool.now in
        let found = slots_answer b (length rows.old) (length table.old) in
        (answer_size ≤ length answer.old
        → SlotTableDemands b rows.old table.old found rows.new table.new) }
{
    if answer.len() < ANSWER_WORDS {
        return ANSWER_SHORT;
    }
    let tables = Tables { nodes, props, pool };
    put_board(answer, board::read_slots(width, &tables, rows, table))
}
