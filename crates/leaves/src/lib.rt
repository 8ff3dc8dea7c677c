// SPDX-License-Identifier: BSD-2-Clause OR GPL-2.0-or-later
// The leaves of the map and the cpu records that they name: rules 18 to 26 over all records. The index, the map and the phandles come from
// three crates and go down two calls: no struct is made of them.
#![tactic(auto)]

mod check;
mod leaf;
mod pass;
mod scan;

pub use scan::read_tree;
