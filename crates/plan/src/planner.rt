// SPDX-License-Identifier: BSD-2-Clause OR GPL-2.0-or-later
// The planner: all mask bits, without each that can be dropped, from the lowest up.
ghost use Rattle.std.specs.Prelude.{◌≡◌, ◌<◌};
ghost use Rattle.plan.specs.answers.Told.{plan_told};
ghost use Rattle.affinity.specs.answers.Mask.{mask_of};
ghost use Rattle.affinity.specs.facts.Level.{Affine};
ghost use Rattle.plan.specs.facts.Planner.{MakeDemands};
ghost use Rattle.plan.specs.answers.Planner.{dropped, thinned, ones_of, plan_with, plan_answer};

use super::check::clashes;
use crate::Plan;
use laws::Broken;

// Every affinity bit is below this one.
const BITS: u32 = 40;

// A plan for a list, from which no position can be dropped.
pub fn plan_of(list: &[u64]) -> Result<Plan, Broken>
    ensures answer { plan_told result ≡ plan_answer list.now }
    ensures demands { MakeDemands list.now (plan_told result) }
{
    let mask = affinity::list_mask(list)?;
    Ok(ones_of(thinned(list, mask)))
}

// What is left of the mask once each bit was tried.
fn thinned(list: &[u64], mask: u64) -> u64
    requires { mask ≡ mask_of list.now }
    ensures { result ≡ thinned list.now 40 }
{
    let mut keep = mask;
    for k in 0..BITS {
        keep = dropped(list, keep, k);
    }
    keep
}

// The bits to keep without bit k, if it is one of them and the others separate the list.
fn dropped(list: &[u64], keep: u64, k: u32) -> u64
    requires { k < 40 }
    ensures { result ≡ dropped list.now keep k }
{
    if (keep >> k) % 2 == 1 {
        let fewer = keep - (1 << k);
        if !clashes(list, fewer) {
            return fewer;
        }
    }
    keep
}

// The plan with the positions of a number's ones.
fn ones_of(keep: u64) -> Plan
    requires { Affine keep }
    ensures { plan_told (Ok result) ≡ plan_with (ones_of keep) }
{
    let mut positions = [0; 32];
    // Counted by hand: the plan needs the count behind the loop, where that of enumerate is gone.
    let mut count = 0;
    for k in 0..BITS {
        if (keep >> k) % 2 == 1 {
            positions[count] = k;
            count += 1;
        }
    }
    Plan { count, positions }
}
