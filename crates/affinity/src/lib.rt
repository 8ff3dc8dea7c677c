// SPDX-License-Identifier: BSD-2-Clause OR GPL-2.0-or-later
// The affinity hash: the slot of each MPIDR of a list, by the bits in which the list's MPIDRs differ.
#![tactic(auto)]

mod level;
mod list;
mod mask;
mod slot;

pub use level::is_affine;
pub use list::{list_hash, list_mask, list_slot};
pub use mask::mask_of;
pub use slot::{hash_of_mask, slot_of};

// The mask, each level's shift, and the number of bits of a slot.
#[derive(Clone, Copy, Default)]
pub struct Hash {
    pub mask: u64,
    pub shifts: [u32; 4],
    pub bits: u32,
}
