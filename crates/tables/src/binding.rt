// SPDX-License-Identifier: BSD-2-Clause OR GPL-2.0-or-later
// A value of the bindings, as a cell of four bytes.

// `cpu` and one zero byte
pub const CPU_STRING: u64 = 0x63707500;
