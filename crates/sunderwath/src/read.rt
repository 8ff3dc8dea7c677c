// SPDX-License-Identifier: BSD-2-Clause OR GPL-2.0-or-later
// The reading call.
ghost use Rattle.std.specs.Prelude.{◌≡◌, ◌≤◌, length};
ghost use Rattle.tables.specs.facts.Board.{board};
ghost use Rattle.demands.specs.answers.Answer.{answer_of};
ghost use Rattle.demands.specs.facts.Reading.{Demands};
ghost use Rattle.sunderwath.specs.answers.Answer.{answer_size, or_short, answer_after};
ghost use Rattle.sunderwath.specs.answers.Board.{board_words, rows_behind};

use crate::answer::{ANSWER_SHORT, ANSWER_WORDS, put_board};
use tables::Tables;

// Reads a board's tables: rows and answer, or the first rule broken.
#[unsafe(no_mangle)]
pub extern "C" fn sunderwath_read_tables(
    width: u32,
    nodes: &[u32],
    props: &[u32],
    pool: &[u8],
    rows: &mut [u32],
    answer: &mut [u32],
) -> u32
    ensures number { let b = board width nodes.now props.now pool.now in
        result ≡ or_short answer.old (answer_of b (length rows.old)).number }
    ensures rows { let b = board width nodes.now props.now pool.now in
        rows.new ≡ rows_behind answer.old b rows.old }
    ensures answer { let b = board width nodes.now props.now pool.now in
        answer.new ≡ answer_after answer.old (board_words (answer_of b (length rows.old))) }
    ensures demands { let b = board width nodes.now props.now pool.now in
        (answer_size ≤ length answer.old
        → Demands b rows.old (answer_of b (length rows.old)) rows.new) }
{
    if answer.len() < ANSWER_WORDS {
        return ANSWER_SHORT;
    }
    let tables = Tables { nodes, props, pool };
    put_board(answer, board::read_tables(width, &tables, rows))
}
