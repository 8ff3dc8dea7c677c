// SPDX-License-Identifier: BSD-2-Clause OR GPL-2.0-or-later
// The cells that tokens begin with.
// No enum: a match on them makes a jump table. Tests without one took 1.3 of `fast` in place of 1.5, on an older kit (docs/SPEED.md, "A blob").

pub const BEGIN_NODE: u32 = 1;

pub const END_NODE: u32 = 2;

pub const PROP: u32 = 3;

pub const NOP: u32 = 4;

pub const END: u32 = 9;
