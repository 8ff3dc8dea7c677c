// SPDX-License-Identifier: BSD-2-Clause OR GPL-2.0-or-later
// The slots of a board: those of MPIDRs; hart ids have none.
ghost use Rattle.std.specs.Prelude.{◌≡◌};
ghost use Rattle.rows.specs.answers.Slots.{mask_for, slots_for, slot_by};

use crate::BoardSlots;
use layout::GAP;
use tables::boards;

// The mask of MPIDRs; 0 of hart ids, of which no bit makes a slot, as the definition `mask_for` has it.
fn mask_for(width: u32, regs: &[u64]) -> u64
    ensures { result ≡ mask_for width regs.now }
{
    if width == boards::RISCV {
        return 0;
    }
    affinity::mask_of(regs)
}

// How the slots are made of a board of a width, whose cpus have these `reg`s.
pub fn slots_for(width: u32, regs: &[u64]) -> BoardSlots
    ensures { result ≡ slots_for width regs.now }
{
    BoardSlots {
        width,
        hash: affinity::hash_of_mask(mask_for(width, regs)),
    }
}

// The slot of the cpu with this `reg`, GAP of a hart id: the word of the row that C reads.
pub fn slot_by(slots: BoardSlots, reg: u64) -> u32
    ensures { result ≡ slot_by slots reg }
{
    if slots.width == boards::RISCV {
        return GAP;
    }
    let hash = slots.hash;
    affinity::slot_of(hash, reg)
}
