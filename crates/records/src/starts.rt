// SPDX-License-Identifier: BSD-2-Clause OR GPL-2.0-or-later
// Where the search for a property of a node starts: the lowest property noted at the node's number modulo 1,024.
ghost use Rattle.std.specs.Prelude.{◌≡◌, min, length, get_or, set};
ghost use Rattle.records.specs.steps.Starts.{place_of};

// How many places there are.
pub const PLACES: usize = 1024;

// What stands where no property is noted. Memory is fixed, and an Option of a number takes twice that of a number.
pub const NO_START: u16 = 65535;

// Notes property k of a node, and gives the lowest one noted at the node's place.
pub fn start_of(starts: &mut [u16], node: usize, k: usize) -> usize
    requires { length starts.old ≡ 1024 }
    ensures value { result ≡ min (get_or starts.old (place_of node) 0) k }
    ensures starts_after { starts.new ≡ set starts.old (place_of node) result }
{
    let at = node % PLACES;
    let start = k.min(usize::from(starts[at]));
    starts[at] = start as u16;
    start
}
