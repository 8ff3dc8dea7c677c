// SPDX-License-Identifier: BSD-2-Clause OR GPL-2.0-or-later
// What every other crate uses: general laws, the numbers and the limits of the rules, what is told of a broken one, and the search of a list.
#![tactic(auto)]

mod first;
pub mod limits;
mod rules;
mod search;

pub use first::first_broken;
pub use rules::{Broken, Refusal, Rule};
pub use search::{is_among, place_in};
