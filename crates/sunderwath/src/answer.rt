// SPDX-License-Identifier: BSD-2-Clause OR GPL-2.0-or-later
// The eleven words of an answer.
ghost use Rattle.std.specs.Prelude.{◌≡◌, ◌≤◌, ◌<◌, ◌^◌, IfErr, length};
ghost use Rattle.laws.specs.facts.Told.{number_of};
ghost use Rattle.laws.specs.answers.Fault.{plain};
ghost use Rattle.laws.specs.answers.Told.{second_of, told_of, broken_in};
ghost use Rattle.affinity.specs.facts.List.{no_hash};
ghost use Rattle.sunderwath.specs.answers.Answer.{answer_size, answer_words, or_short, answer_after, in_words};
ghost use Rattle.sunderwath.specs.answers.Board.{board_words};
ghost use Rattle.demands.specs.facts.Words.{Words};
ghost use Rattle.demands.specs.answers.Told.{board_told};

use crate::front::put_front;
use affinity::Hash;
use demands::BoardRows;
use laws::limits::NO_PROPERTY;
use laws::{Broken, Refusal, Rule};

// The words of an answer.
pub const ANSWER_WORDS: usize = 11;

// What a call tells where its answer is too short.
pub const ANSWER_SHORT: u32 = Rule::AnswerSpace as u32;

// The second place of an answer that tells of no property.
pub const NO_SECOND: u32 = NO_PROPERTY as u32;

// What is told, in words of the C interface: number, place and second place. `Told` of cases has the library's own numbers.
#[derive(Clone, Copy)]
pub struct Told {
    pub number: u32,
    pub place: u32,
    pub second: u32,
}

// No rule broken.
pub const CLEAR: Told = Told {
    number: 0,
    place: 0,
    second: NO_SECOND,
};

// What is told of a refusal.
pub fn tell(refusal: Refusal) -> Told
    requires { (refusal.place < 2 ^ 32) × (second_of refusal.property < 2 ^ 32) }
    ensures { in_words result ≡ told_of refusal }
{
    Told {
        number: refusal.rule.number(),
        place: refusal.place as u32,
        second: refusal.property.unwrap_or(NO_PROPERTY) as u32,
    }
}

// What is told of a rule of which no property is told.
pub fn tell_broken(broken: Broken) -> Told
    requires { broken.place < 2 ^ 32 }
    ensures { in_words result ≡ plain (number_of broken.rule) broken.place }
{
    tell(broken.into())
}

// What is told of a check.
pub fn tell_check(checked: Result<(), Broken>) -> Told
    requires { IfErr checked (λ broken. broken.place < 2 ^ 32) }
    ensures { in_words result ≡ broken_in checked }
{
    match checked {
        Ok(()) => CLEAR,
        Err(broken) => tell_broken(broken),
    }
}

// Writes the eleven words at the start of an answer that has room for them, and gives its number. No struct of the three: each caller has
// them apart, and would put one together for this call alone.
pub fn put_answer(answer: &mut [u32], told: Told, third: u32, hash: Hash) -> u32
    requires { answer_size ≤ length answer.old }
    ensures number { result ≡ or_short answer.old told.number }
    ensures answer { answer.new ≡ answer_after answer.old (answer_words told.number told.place told.second third hash) }
{
    let [a, b, c, d] = hash.shifts;
    // An `as` takes no number that does not fit.
    let low = (hash.mask % 4294967296) as u32;
    let high = (hash.mask / 4294967296) as u32;
    put_front(
        answer,
        &[
            told.number,
            told.place,
            third,
            low,
            high,
            a,
            b,
            c,
            d,
            hash.bits,
            told.second,
        ],
    );
    told.number
}

// The same for a refusal: no third word and no hash.
pub fn put_refusal(answer: &mut [u32], told: Told) -> u32
    requires { answer_size ≤ length answer.old }
    ensures number { result ≡ or_short answer.old told.number }
    ensures answer { answer.new ≡ answer_after answer.old (answer_words told.number told.place told.second 0 no_hash) }
{
    put_answer(answer, told, 0, Hash::default())
}

// The same for the answer of a board, whose numbers are words.
pub fn put_board(answer: &mut [u32], found: Result<BoardRows, Refusal>) -> u32
    requires room { answer_size ≤ length answer.old }
    requires words { Words (board_told found) }
    ensures number { result ≡ or_short answer.old (board_told found).number }
    ensures answer { answer.new ≡ answer_after answer.old (board_words (board_told found)) }
{
    match found {
        Ok(board) => put_answer(answer, CLEAR, board.count as u32, board.hash),
        Err(refusal) => put_refusal(answer, tell(refusal)),
    }
}
