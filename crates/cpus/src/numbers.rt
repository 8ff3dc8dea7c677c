// SPDX-License-Identifier: BSD-2-Clause OR GPL-2.0-or-later
// One pass over a list of cpu records that gathers a number of each: rules 11 to 13, or rule 17.
ghost use Rattle.std.specs.Prelude.{◌≡◌, IfErr, IfOk, length, take};
ghost use Rattle.laws.specs.facts.Told.{number_of};
ghost use Rattle.laws.specs.answers.Told.{second_of, told_in};
ghost use Rattle.cpus.specs.answers.Told.{reading_told};
ghost use Rattle.laws.specs.answers.Search.{is_among};
ghost use Rattle.cpus.specs.answers.Numbers.{reading_at, repeat_rule, unless_seen, first_record, numbers_over};

use crate::read::read_record;
use crate::{CpuNumber, CpuNumbers};
use laws::{Refusal, Rule, is_among};
use property_index::INDEX_WORDS;
use tables::Tables;

// The rule that a repeated number breaks.
fn repeat_rule(wanted: CpuNumbers) -> Rule
    ensures { number_of result ≡ repeat_rule wanted }
{
    match wanted {
        CpuNumbers::Regs { .. } => Rule::DuplicateCpuReg,
        CpuNumbers::Phandles => Rule::CpuPhandle,
    }
}

// The number of cpu record i, or what it breaks, given the numbers of the earlier cpu records.
fn next_reading(
    wanted: CpuNumbers,
    tables: &Tables,
    index: &[u16; INDEX_WORDS],
    earlier: &[u64],
    i: usize,
) -> Result<CpuNumber, Refusal>
    ensures number { let first = reading_at wanted tables.now.props.now tables.now.pool.now index.now i in
        (reading_told result).number ≡ (unless_seen (repeat_rule wanted) (is_among earlier.now first.value) first).number }
    ensures second { let first = reading_at wanted tables.now.props.now tables.now.pool.now index.now i in
        IfErr result (λ refusal. second_of refusal.property ≡ first.second) }
    ensures value { let first = reading_at wanted tables.now.props.now tables.now.pool.now index.now i in
        IfOk result (λ found. found.value ≡ first.value) }
    ensures place { IfErr result (λ refusal. refusal.place ≡ i) }
{
    let found = read_record(wanted, tables, index, i)?;
    if is_among(earlier, found.value) {
        return Err(Refusal {
            rule: repeat_rule(wanted),
            place: i,
            property: found.property,
        });
    }
    Ok(found)
}

// The numbers of cpu records, as many as there is room for, up to the first that breaks a rule.
pub fn read_numbers(
    wanted: CpuNumbers,
    tables: &Tables,
    index: &[u16; INDEX_WORDS],
    records: &[u16],
    values: &mut [u64],
) -> Result<(), Refusal>
    ensures fault { let read = reading_at wanted tables.now.props.now tables.now.pool.now index.now in
        let cut = take (length values.old) records.now in
        told_in result ≡ first_record read (repeat_rule wanted) cut }
    ensures values { let read = reading_at wanted tables.now.props.now tables.now.pool.now index.now in
        let cut = take (length values.old) records.now in
        values.new ≡ numbers_over read (repeat_rule wanted) cut values.old }
{
    let n = records.len().min(values.len());
    // No `first_broken`: the values are written on the way. By index, since the earlier ones are read while the next is written.
    for (k, record) in records[..n].iter().enumerate() {
        let i = usize::from(*record);
        let found = next_reading(wanted, tables, index, &values[..k], i)?;
        values[k] = found.value;
    }
    Ok(())
}
