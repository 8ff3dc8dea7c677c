// SPDX-License-Identifier: BSD-2-Clause OR GPL-2.0-or-later
// Finding the map: rules 15 and 16.
ghost use Rattle.std.specs.Prelude.{◌≡◌, ◌<◌, IfSome, unwrap_or};
ghost use Rattle.laws.specs.answers.Told.{number_in, broken_in};
ghost use Rattle.cpumap.specs.answers.Told.{map_told};
ghost use Rattle.laws.specs.answers.Fault.{first_fault};
ghost use Rattle.tables.specs.facts.Board.{node_count};
ghost use Rattle.cpumap.specs.answers.Find.{is_map_name, is_map, map_of, second_map_fault, map_scan};

use laws::{Broken, Rule, first_broken};
use tables::{Tables, is_child, node_word, range_names};

// Whether record i is named `cpu-map`.
fn is_map_name(tables: &Tables, i: usize) -> bool
    ensures { result ≡ is_map_name tables.now.nodes.now tables.now.pool.now i }
{
    let offset = node_word(tables.nodes, i, 1);
    let len = node_word(tables.nodes, i, 2);
    range_names(tables.pool, offset, len, b"cpu-map")
}

// Whether record i is a child of record 0 named `cpu-map`.
fn is_map(tables: &Tables, i: usize) -> bool
    ensures { result ≡ is_map tables.now.nodes.now tables.now.pool.now i }
{
    is_child(tables.nodes, 0, i) && is_map_name(tables, i)
}

// The map's record.
fn lowest_map(tables: &Tables) -> Option<usize>
    ensures map { let table = tables.now.nodes.now in
        unwrap_or result (node_count table) ≡ map_of table tables.now.pool.now }
    ensures within { IfSome result (λ map. map < node_count tables.now.nodes.now) }
{
    (0..tables.nodes.len() / 3).find(|i| is_map(tables, *i))
}

// Rule 16 at record i: it is named as the map and is not the map.
fn second_map_fault(tables: &Tables, map: usize, i: usize) -> Result<(), Rule>
    requires { map ≡ map_of tables.now.nodes.now tables.now.pool.now }
    ensures { number_in result ≡ second_map_fault tables.now.nodes.now tables.now.pool.now i }
{
    if is_map_name(tables, i) && i != map {
        return Err(Rule::CpuMapDuplicate);
    }
    Ok(())
}

// The lowest record that breaks rule 16.
fn second_map(tables: &Tables, map: usize) -> Result<(), Broken>
    requires { map ≡ map_of tables.now.nodes.now tables.now.pool.now }
    ensures { let table = tables.now.nodes.now in
        broken_in result ≡ first_fault (second_map_fault table tables.now.pool.now) (node_count table) }
{
    first_broken(tables.nodes.len() / 3, |i| second_map_fault(tables, map, i))
}

// The map's record, or the first of rules 15 and 16 that is broken.
pub fn find_map(tables: &Tables) -> Result<usize, Broken>
    ensures { map_told result ≡ map_scan tables.now.nodes.now tables.now.pool.now }
{
    let map = lowest_map(tables).ok_or(Rule::CpuMapMissing)?;
    second_map(tables, map)?;
    Ok(map)
}
