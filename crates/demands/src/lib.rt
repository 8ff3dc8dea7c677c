// SPDX-License-Identifier: BSD-2-Clause OR GPL-2.0-or-later
// What is answered of a board, and what is demanded of the answer and of the row buffer: the rules in their order, and the claim.
#![tactic(auto)]

use affinity::Hash;

// What is answered of a board that is read: the count of rows and the board's hash.
#[derive(Clone, Copy)]
pub struct BoardRows {
    pub count: usize,
    pub hash: Hash,
}
