// SPDX-License-Identifier: BSD-2-Clause OR GPL-2.0-or-later
// Well-formed tables: rules 1 to 4, and all of rules 1 to 8 in their order.
#![tactic(auto)]

mod check;
mod sizes;

pub use check::table_fault;
