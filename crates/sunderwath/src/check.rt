// SPDX-License-Identifier: BSD-2-Clause OR GPL-2.0-or-later
// Rules 1 to 8 and the lookup of a property, for tests.
ghost use Rattle.std.specs.Prelude.{◌≡◌};
ghost use Rattle.tables.specs.facts.Board.{board};
ghost use Rattle.tables.specs.answers.Lookup.{lookup};
ghost use Rattle.wellformed.specs.answers.Check.{table_fault};
ghost use Rattle.sunderwath.specs.answers.Answer.{or_short, answer_after};
ghost use Rattle.sunderwath.specs.answers.Tables.{check_words, found_word, FindsWord};

use crate::answer::{ANSWER_SHORT, ANSWER_WORDS, put_refusal, tell_check};
use laws::limits::NO_PROPERTY;
use tables::{Tables, record_of};

// The first of rules 1 to 8 that is broken.
#[unsafe(no_mangle)]
pub extern "C" fn sunderwath_check_tables(
    width: u32,
    nodes: &[u32],
    props: &[u32],
    pool: &[u8],
    answer: &mut [u32],
) -> u32
    ensures number { result ≡ or_short answer.old (table_fault (board width nodes.now props.now pool.now)).number }
    ensures answer { answer.new
        ≡ answer_after answer.old (check_words (board width nodes.now props.now pool.now)) }
{
    if answer.len() < ANSWER_WORDS {
        return ANSWER_SHORT;
    }
    let tables = Tables { nodes, props, pool };
    let told = tell_check(wellformed::table_fault(width, &tables));
    put_refusal(answer, told)
}

// The record number of a node's property, or 0xFFFFFFFF.
#[unsafe(no_mangle)]
pub extern "C" fn sunderwath_find_property(
    props: &[u32],
    pool: &[u8],
    node: u32,
    name: &[u8],
) -> u32
    ensures answer { result ≡ found_word (lookup props.now pool.now node name.now) }
    ensures finds { FindsWord props.now pool.now node name.now result }
{
    // A cast: tried with `wide` of tables, and the search for a proof of the clause `finds` does not close.
    let found = lookup::find_property(props, pool, node as usize, name);
    record_of(found).unwrap_or(NO_PROPERTY).min(NO_PROPERTY) as u32
}
