// SPDX-License-Identifier: BSD-2-Clause OR GPL-2.0-or-later
// The two calls on a list of MPIDRs.
ghost use Rattle.std.specs.Prelude.{◌≡◌};
ghost use Rattle.affinity.specs.answers.List.{hash_answer, slot_answer};
ghost use Rattle.sunderwath.specs.answers.Answer.{or_short, answer_after};
ghost use Rattle.sunderwath.specs.answers.List.{hash_words, slot_words};

use crate::answer::{ANSWER_SHORT, ANSWER_WORDS, CLEAR, put_answer, put_refusal, tell_broken};
use affinity::Hash;

// The hash of a list of MPIDRs.
#[unsafe(no_mangle)]
pub extern "C" fn sunderwath_list_hash(list: &[u64], answer: &mut [u32]) -> u32
    ensures number { result ≡ or_short answer.old (hash_answer list.now).number }
    ensures answer { answer.new ≡ answer_after answer.old (hash_words list.now) }
{
    if answer.len() < ANSWER_WORDS {
        return ANSWER_SHORT;
    }
    match affinity::list_hash(list) {
        Ok(hash) => put_answer(answer, CLEAR, 0, hash),
        Err(broken) => put_refusal(answer, tell_broken(broken)),
    }
}

// The slot of one MPIDR in a list of MPIDRs.
#[unsafe(no_mangle)]
pub extern "C" fn sunderwath_list_slot(mpidr: u64, list: &[u64], answer: &mut [u32]) -> u32
    ensures number { result ≡ or_short answer.old (slot_answer mpidr list.now).number }
    ensures answer { answer.new ≡ answer_after answer.old (slot_words mpidr list.now) }
{
    if answer.len() < ANSWER_WORDS {
        return ANSWER_SHORT;
    }
    match affinity::list_slot(mpidr, list) {
        Ok(slot) => put_answer(answer, CLEAR, slot, Hash::default()),
        Err(unlisted) => put_refusal(answer, tell_broken(unlisted)),
    }
}
