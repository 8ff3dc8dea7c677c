// SPDX-License-Identifier: BSD-2-Clause OR GPL-2.0-or-later
// The token stream of a flattened devicetree: whether it is whole, and what the node `cpus` holds.
#![tactic(auto)]

mod step;
mod walking;

pub use walking::survey;

// Where a walk stands: the next token's offset, how many nodes are open, whether a property (or, outside every node, the root) may
// come; 1 inside a child of the root named `cpus`, else 0; how many of these there are, where the last began, and what they hold.
// `inside` is a number, as the specs have it: it is added up. `first` is 0 where no `cpus` has begun, as walk_start has it;
// `cpus` counts them, and blob reads `first` only where `cpus` is 1.
#[derive(Clone, Copy, Default)]
pub struct Walk {
    pub at: usize,
    pub depth: usize,
    pub fresh: bool,
    pub inside: usize,
    pub cpus: usize,
    pub first: usize,
    pub nodes: usize,
    pub props: usize,
}

// What follows a token: the walk goes on, or it has come to its end, or it breaks at a place. Three ways, so no Result.
#[derive(Clone, Copy)]
pub enum Next {
    On(Walk),
    Ends(Walk),
    Breaks(usize),
}
