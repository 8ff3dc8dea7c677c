// SPDX-License-Identifier: BSD-2-Clause OR GPL-2.0-or-later
// A list of MPIDRs in bytes.
ghost use Rattle.std.specs.Prelude.{◌≡◌, ◌/◌, ◌≤◌, OnOk, length};
ghost use Rattle.laws.specs.answers.Told.{broken_in};
ghost use Rattle.affinity.specs.answers.Told.{slot_told};
ghost use Rattle.laws.specs.answers.Listed.{laid_over};
ghost use Rattle.wire.specs.facts.Bytes.{number_size, numbers_in};
ghost use Rattle.affinity.specs.answers.List.{first_outside};
ghost use Rattle.loader.specs.facts.List.{ByteSlotDemands};
ghost use Rattle.loader.specs.answers.List.{byte_slot};

use affinity::is_affine;
use laws::limits::MAX_CPUS;
use laws::{Broken, Rule};
use wire::{NUMBER_BYTES, number_at};

// Reads the MPIDRs of a list, as far as the first one with a bit that is no affinity bit. That test keeps the loop from being a mere copy, which
// the compiler would turn into a call of memcpy. No search for the first fault alone: the loop fills the list on its way.
fn read_mpidrs(list: &[u8], mpidrs: &mut [u64]) -> Result<(), Broken>
    requires { length list.now / number_size ≤ length mpidrs.old }
    ensures fault { broken_in result ≡ first_outside (numbers_in list.now) }
    ensures mpidrs { OnOk result (mpidrs.new ≡ laid_over (numbers_in list.now) mpidrs.old) }
{
    for k in 0..list.len() / NUMBER_BYTES {
        let mpidr = number_at(list, NUMBER_BYTES * k);
        if !is_affine(mpidr) {
            return Err(Rule::ListMpidr.broken_at(k));
        }
        mpidrs[k] = mpidr;
    }
    Ok(())
}

// The slot of one MPIDR in a list of MPIDRs, eight bytes each.
pub fn byte_slot(mpidr: u64, list: &[u8]) -> Result<u32, Broken>
    ensures answer { slot_told result ≡ byte_slot mpidr list.now }
    ensures demands { ByteSlotDemands list.now mpidr (slot_told result) }
{
    let count = list.len() / NUMBER_BYTES;
    if list.len() % NUMBER_BYTES != 0 || MAX_CPUS < count {
        return Err(Rule::ListLength.broken_at(0));
    }
    // Fixed memory, and a count beside it: there is no heap.
    let mut mpidrs = [0u64; MAX_CPUS];
    read_mpidrs(list, &mut mpidrs)?;
    affinity::list_slot(mpidr, &mpidrs[..count])
}
