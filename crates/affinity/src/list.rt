// SPDX-License-Identifier: BSD-2-Clause OR GPL-2.0-or-later
// What is answered of a list of MPIDRs.
ghost use Rattle.std.specs.Prelude.{◌≡◌};
ghost use Rattle.laws.specs.answers.Told.{broken_in};
ghost use Rattle.affinity.specs.answers.Told.{mask_told, hash_told, slot_told};
ghost use Rattle.affinity.specs.answers.List.{first_outside, mask_answer, hash_answer, slot_answer};
ghost use Rattle.affinity.specs.facts.List.{HashDemands, SlotDemands};

use super::level::is_affine;
use super::mask::gather;
use super::slot::{hash_of_mask, slot_of};
use crate::Hash;
use laws::limits::MAX_CPUS;
use laws::{Broken, Rule, is_among};

// The hash of a list.
pub fn list_hash(list: &[u64]) -> Result<Hash, Broken>
    ensures answer { hash_told result ≡ hash_answer list.now }
    ensures demands { HashDemands list.now (hash_told result) }
{
    let mask = list_mask(list)?;
    Ok(hash_of_mask(mask))
}

// The slot of one MPIDR in a list, for one that is listed.
// `plan_slot` of plan differs in check and slot: what both have is one `if`, too little for a function.
pub fn list_slot(mpidr: u64, list: &[u64]) -> Result<u32, Broken>
    ensures answer { slot_told result ≡ slot_answer mpidr list.now }
    ensures demands { SlotDemands list.now mpidr (slot_told result) }
{
    let mask = list_mask(list)?;
    if !is_among(list, mpidr) {
        return Err(Rule::ListUnknown.broken_at(0));
    }
    Ok(slot_of(hash_of_mask(mask), mpidr))
}

// The mask of a list. One pass over a list with no fault: a bit outside in one of the list is one in the or of all.
pub fn list_mask(list: &[u64]) -> Result<u64, Broken>
    ensures answer { mask_told result ≡ mask_answer list.now }
{
    if list.is_empty() || MAX_CPUS < list.len() {
        return Err(Rule::ListLength.broken_at(0));
    }
    let bits = gather(list);
    if !is_affine(bits.some) {
        first_outside(list)?;
    }
    Ok(bits.mask)
}

// The lowest index with a bit outside the affinity bits. A loop over the items: `first_broken` of laws tests places, of which a proof knows no
// item.
fn first_outside(list: &[u64]) -> Result<(), Broken>
    ensures { broken_in result ≡ first_outside list.now }
{
    for (i, mpidr) in list.iter().enumerate() {
        if !is_affine(*mpidr) {
            return Err(Rule::ListMpidr.broken_at(i));
        }
    }
    Ok(())
}
