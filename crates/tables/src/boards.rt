// SPDX-License-Identifier: BSD-2-Clause OR GPL-2.0-or-later
// The board numbers, which the width may be. No enum: contracts (`read_root`, `slots_for` ..) hold of every width.
pub const ARM32: u32 = 32;

pub const ARM64: u32 = 64;

// The cpus have hart ids, and no MPIDRs.
pub const RISCV: u32 = 5;
