// SPDX-License-Identifier: BSD-2-Clause OR GPL-2.0-or-later
// The limits of the rules.

// Node records of a board, of which there is at least one.
pub const MAX_NODES: usize = 1024;

// Property records of a board.
pub const MAX_PROPERTIES: usize = 4096;

// Bytes of a board's pool.
pub const MAX_POOL: usize = 65536;

// Bytes of a node's name.
pub const MAX_NODE_NAME: usize = 64;

// Bytes of a property's name.
pub const MAX_PROPERTY_NAME: usize = 31;

// The parent word of record 0, as the tables have it.
pub const NO_PARENT: usize = 0xFFFFFFFF;

// The second place where no property is told of, as C reads it.
pub const NO_PROPERTY: usize = 0xFFFFFFFF;

// Cpu records of a board, and MPIDRs of a list.
pub const MAX_CPUS: usize = 256;

// Bits of the hash of a board whose slots have a table.
pub const MAX_TABLE_BITS: u32 = 12;

// Bytes of a flattened devicetree.
pub const MAX_BLOB: usize = 65536;
