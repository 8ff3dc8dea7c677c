// SPDX-License-Identifier: BSD-2-Clause OR GPL-2.0-or-later
// Rules 1 to 8 in the order of checking.
ghost use Rattle.std.specs.Prelude.{◌≡◌};
ghost use Rattle.laws.specs.answers.Told.{broken_in};
ghost use Rattle.tables.specs.facts.Board.{board_of};
ghost use Rattle.wellformed.specs.answers.Check.{table_fault};

use crate::sizes::size_fault;
use laws::Broken;
use records::{first_node_fault, first_property_fault};
use tables::Tables;

// The first of rules 1 to 8 that is broken, with its place.
pub fn table_fault(width: u32, tables: &Tables) -> Result<(), Broken>
    ensures { broken_in result ≡ table_fault (board_of width tables.now) }
{
    let bytes = tables.pool.len();
    size_fault(width, tables.nodes.len(), tables.props.len(), bytes)?;
    first_node_fault(tables.nodes, bytes)?;
    first_property_fault(tables.nodes.len() / 3, tables.props, tables.pool)
}
