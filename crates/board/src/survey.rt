// SPDX-License-Identifier: BSD-2-Clause OR GPL-2.0-or-later
// Rules 1 to 26, 36 and 37, and what the rows are made of: the cpu records, their `reg`s, the leaves and the cpus that they name.
ghost use Rattle.std.specs.Prelude.{◌≡◌};
ghost use Rattle.tables.specs.facts.Board.{board_of};
ghost use Rattle.board.specs.steps.Told.{survey_told};
ghost use Rattle.board.specs.steps.Survey.{survey_of, Listed};
ghost use Rattle.demands.specs.answers.Survey.{survey_fault};

use crate::{Arrays, Counts};
use cpus::CpuNumbers;
use laws::Refusal;
use laws::limits::MAX_CPUS;
use property_index::INDEX_WORDS;
use tables::Tables;

// Checks rules 1 to 26, 36 and 37, and lists what the rows are made of. What the lists hold after a refusal is not said.
pub fn survey(width: u32, tables: &Tables, arrays: &mut Arrays) -> Result<Counts, Refusal>
    ensures answer { survey_told result ≡ survey_of (board_of width tables.now) }
    ensures lists { let b = board_of width tables.now in
        ((survey_fault b).number ≡ 0 → Listed b arrays.old arrays.new) }
{
    // Fixed memory, since there is no heap. The arrays stand first, so that their zeros are written once. Of the phandles the first `count` are
    // those of the cpus found.
    let mut index = [0u16; INDEX_WORDS];
    let mut phandles = [0u64; MAX_CPUS];
    wellformed::table_fault(width, tables)?;
    let root = cpus::read_root(width, tables);
    root.checked?;
    let count = cpus::list_cpus(tables, &mut arrays.cpus);
    cpus::count_fault(count)?;
    let listed = &arrays.cpus[..count];
    property_index::index_properties(tables.props, tables.pool, &mut index);
    let cells = root.cells;
    let wanted = CpuNumbers::Regs { cells, width };
    cpus::read_numbers(wanted, tables, &index, listed, &mut arrays.regs)?;
    let map = cpumap::find_map(tables)?;
    let wanted = CpuNumbers::Phandles;
    cpus::read_numbers(wanted, tables, &index, listed, &mut phandles)?;
    let leaves = leaves::read_tree(
        tables,
        &index,
        map,
        listed,
        &phandles[..count],
        &mut arrays.leaves,
        &mut arrays.named,
    )?;
    Ok(Counts {
        cpus: count,
        leaves,
    })
}
