// SPDX-License-Identifier: BSD-2-Clause OR GPL-2.0-or-later
// A flattened devicetree: the rules of a blob, what is answered of it, and what holds of that. The code is in crate `blob`.
#![tactic(auto)]

// What is answered of a blob that is read: the counts of the records in both tables.
#[derive(Clone, Copy)]
pub struct BlobCounts {
    pub nodes: u32,
    pub props: u32,
}
