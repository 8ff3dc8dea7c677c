// SPDX-License-Identifier: BSD-2-Clause OR GPL-2.0-or-later
// The three calls on plans.
ghost use Rattle.std.specs.Prelude.{◌≡◌, ◌≤◌, [], ◌∷◌, ◌++◌, length, drop};
ghost use Rattle.plan.specs.facts.Planner.{MakeDemands};
ghost use Rattle.plan.specs.facts.Rules.{PlanDemands, PlanSlotDemands};
ghost use Rattle.plan.specs.answers.Check.{plan_fault};
ghost use Rattle.plan.specs.answers.Planner.{plan_answer};
ghost use Rattle.plan.specs.answers.Slot.{plan_slot};
ghost use Rattle.sunderwath.specs.answers.Answer.{or_short_of, answer_after_of};
ghost use Rattle.sunderwath.specs.answers.Plan.{plan_check_size, plan_check_words, plan_slot_size, plan_slot_words, plan_size, plan_words};

use crate::answer::{ANSWER_SHORT, Told, tell_broken, tell_check};
use crate::front::put_front;

// The words of the three answers.
const CHECK_WORDS: usize = 2;

const SLOT_WORDS: usize = 3;

const PLAN_WORDS: usize = 35;

// The words of an answer before the positions of a plan.
const BEFORE_POSITIONS: usize = 3;

// Whether positions are a plan for a list: 0, or the first of 28, 29 and 40.
#[unsafe(no_mangle)]
pub extern "C" fn sunderwath_plan_check(list: &[u64], positions: &[u32], answer: &mut [u32]) -> u32
    ensures number { result ≡ or_short_of plan_check_size answer.old (plan_fault list.now positions.now).number }
    ensures answer { answer.new
        ≡ answer_after_of plan_check_size answer.old (plan_check_words (plan_fault list.now positions.now)) }
    ensures demands { PlanDemands list.now positions.now (plan_fault list.now positions.now) }
{
    if answer.len() < CHECK_WORDS {
        return ANSWER_SHORT;
    }
    let told = tell_check(plan::check_plan(list, positions));
    put_front(answer, &[told.number, told.place]);
    told.number
}

// Writes number and place of a refusal and a 0 at the start of an answer that has room for them, and gives the number.
// `put_refused` of the byte calls writes bytes, and the second place too.
fn put_refused(answer: &mut [u32], told: Told) -> u32
    requires { 3 ≤ length answer.old }
    ensures number { result ≡ told.number }
    ensures answer { answer.new ≡ (told.number ∷ told.place ∷ 0 ∷ []) ++ drop 3 answer.old }
{
    put_front(answer, &[told.number, told.place, 0]);
    told.number
}

// The slot of one MPIDR of a list under a plan.
#[unsafe(no_mangle)]
pub extern "C" fn sunderwath_plan_slot(
    mpidr: u64,
    list: &[u64],
    positions: &[u32],
    answer: &mut [u32],
) -> u32
    ensures number { result ≡ or_short_of plan_slot_size answer.old (plan_slot mpidr list.now positions.now).number }
    ensures answer { answer.new
        ≡ answer_after_of plan_slot_size answer.old (plan_slot_words (plan_slot mpidr list.now positions.now)) }
    ensures demands { PlanSlotDemands list.now positions.now mpidr (plan_slot mpidr list.now positions.now) }
{
    if answer.len() < SLOT_WORDS {
        return ANSWER_SHORT;
    }
    match plan::plan_slot(mpidr, list, positions) {
        Ok(slot) => {
            put_front(answer, &[0, 0, slot]);
            0
        }
        Err(broken) => put_refused(answer, tell_broken(broken)),
    }
}

// A plan for a list, from which no position can be dropped.
#[unsafe(no_mangle)]
pub extern "C" fn sunderwath_plan_make(list: &[u64], answer: &mut [u32]) -> u32
    ensures number { result ≡ or_short_of plan_size answer.old (plan_answer list.now).number }
    ensures answer { answer.new ≡ answer_after_of plan_size answer.old (plan_words (plan_answer list.now)) }
    ensures demands { MakeDemands list.now (plan_answer list.now) }
{
    if answer.len() < PLAN_WORDS {
        return ANSWER_SHORT;
    }
    match plan::plan_of(list) {
        Ok(plan) => {
            put_front(answer, &[0, 0, plan.count as u32]);
            put_front(&mut answer[BEFORE_POSITIONS..], &plan.positions);
            0
        }
        Err(broken) => {
            let number = put_refused(answer, tell_broken(broken));
            answer[BEFORE_POSITIONS..PLAN_WORDS].fill(0);
            number
        }
    }
}
