// SPDX-License-Identifier: BSD-2-Clause OR GPL-2.0-or-later
// Rules 1 to 4: the width and the lengths of the tables.
ghost use Rattle.std.specs.Prelude.{◌≡◌};
ghost use Rattle.laws.specs.answers.Fault.{or_number};
ghost use Rattle.laws.specs.answers.Told.{number_in};
ghost use Rattle.wellformed.specs.answers.Check.{width_fault, node_words_fault, prop_words_fault, pool_fault};

use laws::Rule;
use laws::limits::{MAX_NODES, MAX_POOL, MAX_PROPERTIES};
use tables::boards;

fn width_fault(width: u32) -> Result<(), Rule>
    ensures { number_in result ≡ width_fault width }
{
    match width {
        boards::ARM32 | boards::ARM64 | boards::RISCV => Ok(()),
        _ => Err(Rule::BoardWidth),
    }
}

// Apart from `prop_words_fault`: they differ in size, limit and number, and in whether none is allowed.
fn node_words_fault(words: usize) -> Result<(), Rule>
    ensures { number_in result ≡ node_words_fault words }
{
    if words % 3 == 0 && words != 0 && words <= 3 * MAX_NODES {
        return Ok(());
    }
    Err(Rule::NodeTableSize)
}

fn prop_words_fault(words: usize) -> Result<(), Rule>
    ensures { number_in result ≡ prop_words_fault words }
{
    if words % 5 == 0 && words <= 5 * MAX_PROPERTIES {
        return Ok(());
    }
    Err(Rule::PropertyTableSize)
}

fn pool_fault(bytes: usize) -> Result<(), Rule>
    ensures { number_in result ≡ pool_fault bytes }
{
    if MAX_POOL < bytes {
        return Err(Rule::PoolSize);
    }
    Ok(())
}

// The first of rules 1 to 4 that is broken.
pub fn size_fault(width: u32, nodes: usize, props: usize, pool: usize) -> Result<(), Rule>
    ensures { number_in result ≡ or_number (width_fault width) (or_number (node_words_fault nodes) (or_number (prop_words_fault props) (pool_fault pool))) }
{
    width_fault(width)?;
    node_words_fault(nodes)?;
    prop_words_fault(props)?;
    pool_fault(pool)
}
