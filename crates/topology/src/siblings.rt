// SPDX-License-Identifier: BSD-2-Clause OR GPL-2.0-or-later
// The numbers of siblings: rule 21.
ghost use Rattle.std.specs.Prelude.{◌≡◌};
ghost use Rattle.laws.specs.answers.Told.{number_in};
ghost use Rattle.tables.specs.facts.Tree.{Child};
ghost use Rattle.topology.specs.answers.Siblings.{is_free, number_fault};

use cpumap::has_number;
use laws::Rule;
use tables::{Tables, is_child, wide};

// Whether record i, a child of p, may have the number n: no earlier child of p has it, and p has more than n children.
// One pass over the records after p. It ends at record i where n is not above the number of earlier children.
fn is_free(tables: &Tables, p: usize, i: usize, n: u32) -> bool
    requires { Child tables.now.nodes.now p i }
    ensures { result ≡ is_free tables.now.nodes.now tables.now.pool.now p i n }
{
    // Counted by hand: filter and enumerate were tried, and the proof did not close.
    let mut count: usize = 0;
    for j in p + 1..tables.nodes.len() / 3 {
        if is_child(tables.nodes, p, j) {
            if j < i {
                if has_number(tables, j, n) {
                    return false;
                }
            } else if wide(n) <= count {
                return true;
            }
            count += 1;
        }
    }
    false
}

// Rule 21: the number n of record i, a child of p, is not below the number of p's children or is that of an earlier one.
pub fn number_fault(tables: &Tables, p: usize, i: usize, n: u32) -> Result<(), Rule>
    requires { Child tables.now.nodes.now p i }
    ensures { number_in result ≡ number_fault tables.now.nodes.now tables.now.pool.now p i n }
{
    if is_free(tables, p, i, n) {
        return Ok(());
    }
    Err(Rule::CpuMapOrder)
}
