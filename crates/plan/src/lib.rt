// SPDX-License-Identifier: BSD-2-Clause OR GPL-2.0-or-later
// Plans: bit positions that tell the MPIDRs of a list apart, where it can be in fewer slots than the hash has.
// No struct of a list with positions or with the bits to keep: the C call lends list and positions as they are, and the
// bits change at each step of the planner. A struct would be put together for one call.
#![tactic(auto)]

mod check;
mod planner;
mod slot;

pub use check::check_plan;
pub use planner::plan_of;
pub use slot::plan_slot;

// A plan: its positions, rising, are the first `count` of the array. The count stands beside it since there is no heap to grow a list on.
#[derive(Clone, Copy)]
pub struct Plan {
    pub count: usize,
    pub positions: [u32; 32],
}
