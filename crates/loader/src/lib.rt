// SPDX-License-Identifier: BSD-2-Clause OR GPL-2.0-or-later
// The calls of a loader, on bytes: a blob in and its rows out, and the slot of an MPIDR in a list.
#![tactic(auto)]

mod image;
mod list;

pub use image::read_image;
pub use list::byte_slot;
