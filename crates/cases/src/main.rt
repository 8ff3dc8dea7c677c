// SPDX-License-Identifier: BSD-2-Clause OR GPL-2.0-or-later
// Runs the cases of standard input and writes what the library answers of each: boards, boards with a table of slots, lists of MPIDRs and
// names. The texts between the numbers are of standard input too. tests/src/bin/make_cases.rs makes the files stdin and stdout; the answers
// in stdout are the second reader's.
#![tactic(auto)]

mod boards;
mod input;
mod lists;
mod say;

use boards::Asked;
use std::io;

// The kinds of a case, as standard input has them. No enum: each is matched once.
const BOARD: u32 = 0;

const LIST: u32 = 1;

const SLOTS: u32 = 3;

// The kind of a name and its number.
fn name(rt: &(impl Input + Print)) -> io::Result<()> {
    let mut bytes = [0u8; 96];
    let count = input::bytes(rt, &mut bytes);
    let name = names::name_of(&bytes[..count]);
    say::number(rt, u64::from(cpumap::kind_number(name)))?;
    say::number(rt, u64::from(cpumap::topology_number(name)))
}

// The first word is the number of cases, and the first of each case is its kind.
fn main(rt: HostRuntime) -> io::Result<()> {
    let count = input::word(&rt);
    say::number(&rt, u64::from(count))?;
    for _ in 0..count {
        match input::word(&rt) {
            BOARD => boards::board(&rt, Asked::Rows)?,
            LIST => lists::list(&rt)?,
            SLOTS => boards::board(&rt, Asked::Slots)?,
            _ => name(&rt)?,
        }
    }
    Ok(())
}
