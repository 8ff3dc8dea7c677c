// SPDX-License-Identifier: BSD-2-Clause OR GPL-2.0-or-later
// The records of the cpu map: their kinds, numbers and depth: rules 18 to 23 at one record.
#![tactic(auto)]

mod kind;
mod record;
mod shape;
mod siblings;

pub use record::record_shape;
