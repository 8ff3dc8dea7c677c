// SPDX-License-Identifier: BSD-2-Clause OR GPL-2.0-or-later
// Rules 9, 10, 36 and 37: the root record and the number of cpu records.
ghost use Rattle.std.specs.Prelude.{◌≡◌, ℕ, min, set};
ghost use Rattle.laws.specs.answers.Told.{number_in, told_in};
ghost use Rattle.cpus.specs.answers.Told.{root_told};
ghost use Rattle.laws.specs.answers.Search.{count_below, list_below};
ghost use Rattle.laws.specs.answers.Listed.{laid_over};
ghost use Rattle.tables.specs.facts.Board.{board_of, node_count};
ghost use Rattle.tables.specs.facts.Binding.{address_cells_key};
ghost use Rattle.tables.specs.answers.Lookup.{lookup};
ghost use Rattle.laws.specs.facts.Limits.{max_nodes};
ghost use Rattle.cpus.specs.answers.Check.{is_cpu, cells_for, address_cells, root_fault, root_reading, count_fault};

use crate::node::is_cpu;
use crate::property::{cell_in, refusal_of};
use crate::{Cells, RootReading};
use laws::limits::{MAX_CPUS, MAX_NODES};
use laws::{Refusal, Rule};
use lookup::find_property;
use tables::{Found, Tables, boards, name_is};

// What `#address-cells` gives a board of a width: one cell, or on 64-bit ARM two.
fn cells_for(width: u32, value: Option<u64>) -> Option<Cells>
    ensures { result ≡ cells_for width value }
{
    match value {
        Some(1) => Some(Cells::One),
        Some(2) if width == boards::ARM64 => Some(Cells::Two),
        _ => None,
    }
}

// The first of rules 9, 36 and 37 that is broken, given `#address-cells` and what it allows.
fn check_root(
    tables: &Tables,
    address: Option<Found>,
    allowed: Option<Cells>,
) -> Result<(), Refusal>
    ensures { let t = tables.now in (width : ℕ) →
        address ≡ lookup t.props.now t.pool.now 0 address_cells_key → allowed ≡ address_cells (board_of width t) →
        told_in result ≡ root_fault (board_of width t) }
{
    if !name_is(tables, 0, b"cpus") {
        return Err(Rule::CpusNode.at(0));
    }
    allowed.ok_or(refusal_of(Rule::CpusAddressCells, 0, address))?;
    let size = find_property(tables.props, tables.pool, 0, b"#size-cells");
    if cell_in(tables.pool, size) != Some(0) {
        return Err(refusal_of(Rule::CpusSizeCells, 0, size));
    }
    Ok(())
}

// Reads record 0: rules 9, 36 and 37, and the cells of the board's `reg`s.
pub fn read_root(width: u32, tables: &Tables) -> RootReading
    ensures { root_told result ≡ root_reading (board_of width tables.now) }
{
    let address = find_property(tables.props, tables.pool, 0, b"#address-cells");
    let allowed = cells_for(width, cell_in(tables.pool, address));
    RootReading {
        checked: check_root(tables, address, allowed),
        cells: allowed.unwrap_or(Cells::One),
    }
}

// Writes a record's number at index k, if there is room.
fn put_record(records: &mut [u16], k: usize, i: u16)
    ensures { records.new ≡ set records.old k i }
{
    // With `get_mut` the proof did not close: of the elements behind it a proof knows nothing.
    if k < records.len() {
        records[k] = i;
    }
}

// Lists the cpu records among the first 1,024 records, as many as there is room for, and counts them.
pub fn list_cpus(tables: &Tables, records: &mut [u16; MAX_CPUS]) -> usize
    ensures count { let t = tables.now in
        result ≡ count_below (is_cpu t.nodes.now t.pool.now) (min (node_count t.nodes.now) max_nodes) }
    ensures records { let t = tables.now in
        records.new ≡ laid_over (list_below (is_cpu t.nodes.now t.pool.now) (min (node_count t.nodes.now) max_nodes)) records.old }
{
    let n = (tables.nodes.len() / 3).min(MAX_NODES);
    // Counted by hand: the count is the next index and, past the room too, the answer.
    let mut count: usize = 0;
    for i in 0..n {
        if is_cpu(tables, i) {
            put_record(records, count, i as u16);
            count += 1;
        }
    }
    count
}

// Rule 10: there is a cpu record, and not too many.
pub fn count_fault(count: usize) -> Result<(), Rule>
    ensures { number_in result ≡ count_fault count }
{
    match count {
        1..=MAX_CPUS => Ok(()),
        _ => Err(Rule::CpuCount),
    }
}
