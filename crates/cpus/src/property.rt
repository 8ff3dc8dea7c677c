// SPDX-License-Identifier: BSD-2-Clause OR GPL-2.0-or-later
// A property's value as a number of one cell or of two, and what is told of a property. The pool stands beside what was found in it: a
// `Found` holds no slice, so that it may be kept.
ghost use Rattle.std.specs.Prelude.{◌≡◌, ◌+◌, ◌≤◌, length};
ghost use Rattle.laws.specs.facts.Told.{number_of};
ghost use Rattle.laws.specs.answers.Told.{told_of};
ghost use Rattle.tables.specs.answers.Lookup.{record_of};
ghost use Rattle.cpus.specs.answers.Cell.{size_of, value_sized, cells_at, value_in, cell_in};

use crate::Cells;
use laws::{Refusal, Rule};
use tables::{Found, cell_at, is_inside, record_of};

// The bytes of one cell, or of two.
fn size_of(cells: Cells) -> usize
    ensures { result ≡ size_of cells }
{
    match cells {
        Cells::One => 4,
        Cells::Two => 8,
    }
}

// Whether the value of a property lies inside the pool and has so many cells.
fn has_cells(pool: &[u8], cells: Cells, property: Found) -> bool
    ensures { result ≡ value_sized pool.now (size_of cells) property }
{
    let size = size_of(cells);
    property.len == size && is_inside(pool.len(), property.offset, size)
}

// The number of the cells from `at` on: the only cell, or the upper and the lower.
fn cells_at(pool: &[u8], cells: Cells, at: usize) -> u64
    requires { at + size_of cells ≤ length pool.now }
    ensures { result ≡ cells_at pool.now cells at }
{
    let first = u64::from(cell_at(pool, at));
    match cells {
        Cells::One => first,
        // As the definition `cells_at` has it.
        Cells::Two => first * 4294967296 + u64::from(cell_at(pool, at + 4)),
    }
}

// The number that is the value of a property, if it was found and has so many cells.
pub fn value_in(pool: &[u8], cells: Cells, found: Option<Found>) -> Option<u64>
    ensures { result ≡ value_in pool.now cells found }
{
    let property = found?;
    if has_cells(pool, cells, property) {
        return Some(cells_at(pool, cells, property.offset));
    }
    None
}

// The cell that is the value of a property, if it was found and has four bytes.
pub fn cell_in(pool: &[u8], found: Option<Found>) -> Option<u64>
    ensures { result ≡ cell_in pool.now found }
{
    value_in(pool, Cells::One, found)
}

// A rule that is broken at a place, told of a property.
pub fn refusal_of(rule: Rule, place: usize, found: Option<Found>) -> Refusal
    ensures { told_of result ≡ record { number = number_of rule; place = place; second = record_of found } }
{
    Refusal {
        rule,
        place,
        property: record_of(found),
    }
}
