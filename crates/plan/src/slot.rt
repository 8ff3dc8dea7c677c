// SPDX-License-Identifier: BSD-2-Clause OR GPL-2.0-or-later
// The slot of an MPIDR under a plan.
ghost use Rattle.std.specs.Prelude.{◌≡◌};
ghost use Rattle.affinity.specs.answers.Told.{slot_told};
ghost use Rattle.plan.specs.facts.Plan.{Positions};
ghost use Rattle.plan.specs.facts.Rules.{PlanSlotDemands};
ghost use Rattle.plan.specs.answers.Slot.{slot_under, plan_slot};

use super::check::check_plan;
use laws::{Broken, Rule, is_among};

// The slot of one MPIDR under a plan, for one that is listed.
// `list_slot` of affinity differs in check and slot: what both have is one `if`, too little for a function.
pub fn plan_slot(mpidr: u64, list: &[u64], positions: &[u32]) -> Result<u32, Broken>
    ensures answer { slot_told result ≡ plan_slot mpidr list.now positions.now }
    ensures demands { PlanSlotDemands list.now positions.now mpidr (slot_told result) }
{
    check_plan(list, positions)?;
    if !is_among(list, mpidr) {
        return Err(Rule::ListUnknown.broken_at(0));
    }
    Ok(slot_under(positions, mpidr))
}

// The bits of an MPIDR at the positions, the lowest position in bit 0.
fn slot_under(positions: &[u32], mpidr: u64) -> u32
    requires { Positions positions.now }
    ensures { result ≡ slot_under positions.now mpidr }
{
    let mut slot = 0;
    for (i, p) in positions.iter().enumerate() {
        let bit = ((mpidr >> *p) % 2) as u32;
        slot += bit << i;
    }
    slot
}
