// SPDX-License-Identifier: BSD-2-Clause OR GPL-2.0-or-later
// Lists of MPIDRs.
use crate::{input, say};
use laws::Refusal;
use std::io;

// Room for an MPIDR more than the limit allows. Fixed memory, and a count beside it: there is no heap.
const LIST_ROOM: usize = 257;

// The MPIDR whose slot is asked follows the list.
pub fn list(rt: &(impl Input + Print)) -> io::Result<()> {
    let mut list = [0u64; LIST_ROOM];
    let count = input::count(rt, LIST_ROOM);
    for mpidr in &mut list[..count] {
        *mpidr = input::mpidr(rt);
    }
    ask(rt, input::mpidr(rt), &list[..count])
}

// The number and the place of the hash, then the slot's answer with the hash.
fn ask(rt: &(impl Input + Print), mpidr: u64, list: &[u64]) -> io::Result<()> {
    let hash = affinity::list_hash(list).map_err(Refusal::from);
    say::rule(rt, hash.into())?;
    let slot = affinity::list_slot(mpidr, list).map_err(Refusal::from);
    say::answer(
        rt,
        slot.into(),
        slot.unwrap_or(0) as usize,
        hash.unwrap_or_default(),
    )
}
