// SPDX-License-Identifier: BSD-2-Clause OR GPL-2.0-or-later
// Whether a plan is one for a list: its positions rise in the affinity bits, and no two different MPIDRs agree at all of them.
ghost use Rattle.std.specs.Prelude.{◌≡◌, ◌<◌, length};
ghost use Rattle.laws.specs.answers.Told.{number_in, broken_in};
ghost use Rattle.plan.specs.facts.Plan.{Positions};
ghost use Rattle.plan.specs.facts.Rules.{PlanDemands};
ghost use Rattle.plan.specs.answers.Check.{is_bit, bad_position, bad_positions, keep_of};
ghost use Rattle.plan.specs.answers.Check.{clash, clashes_at, clashes, plan_number, plan_fault};

use laws::{Broken, Rule};

// The first of rules 28, 29 and 40 that is broken, if any is.
pub fn check_plan(list: &[u64], positions: &[u32]) -> Result<(), Broken>
    ensures answer { broken_in result ≡ plan_fault list.now positions.now }
    ensures demands { PlanDemands list.now positions.now (broken_in result) }
{
    affinity::list_mask(list)?;
    plan_number(list, positions)?;
    Ok(())
}

// Rule 40, where the positions are no plan for the list.
fn plan_number(list: &[u64], positions: &[u32]) -> Result<(), Rule>
    ensures { number_in result ≡ plan_number list.now positions.now }
{
    if bad_positions(positions) || clashes(list, keep_of(positions)) {
        return Err(Rule::PlanPositions);
    }
    Ok(())
}

// Whether some position is no affinity bit, or does not rise.
fn bad_positions(positions: &[u32]) -> bool
    ensures { result ≡ bad_positions positions.now }
{
    (0..positions.len()).any(|i| bad_position(positions, i))
}

// Whether the position at an index is no affinity bit, or does not rise.
fn bad_position(positions: &[u32], i: usize) -> bool
    requires { i < length positions.now }
    ensures { result ≡ bad_position positions.now i }
{
    !is_bit(positions[i]) || (i != 0 && positions[i] <= positions[i - 1])
}

// Whether a position is an affinity bit.
fn is_bit(p: u32) -> bool
    ensures { result ≡ is_bit p }
{
    p < 24 || (32 <= p && p < 40)
}

// The bits at the positions.
fn keep_of(positions: &[u32]) -> u64
    requires { Positions positions.now }
    ensures { result ≡ keep_of positions.now }
{
    let mut keep = 0;
    for p in positions {
        keep |= 1 << *p;
    }
    keep
}

// Whether some two of a list differ, and not in the bits to keep. Each pair is looked at once, up to the first.
pub fn clashes(list: &[u64], keep: u64) -> bool
    ensures { result ≡ clashes list.now keep }
{
    (0..list.len()).any(|j| clashes_at(list, keep, j))
}

// Whether one of the list before index j clashes with the one there.
fn clashes_at(list: &[u64], keep: u64, j: usize) -> bool
    requires { j < length list.now }
    ensures { result ≡ clashes_at list.now keep j }
{
    // Read once here: in the closure it is read for each pair, which took twice the time.
    let last = list[j];
    list[..j].iter().any(|a| clash(keep, *a, last))
}

// Whether two numbers differ, and not in the bits to keep.
fn clash(keep: u64, a: u64, b: u64) -> bool
    ensures { result ≡ clash keep a b }
{
    a & keep == b & keep && a != b
}
