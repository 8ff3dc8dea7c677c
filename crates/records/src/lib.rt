// SPDX-License-Identifier: BSD-2-Clause OR GPL-2.0-or-later
// Each node record and each property: rules 5 to 8.
#![tactic(auto)]

mod name;
mod nodes;
mod properties;
mod starts;

pub use nodes::first_node_fault;
pub use properties::first_property_fault;
