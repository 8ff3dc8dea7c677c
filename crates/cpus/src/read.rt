// SPDX-License-Identifier: BSD-2-Clause OR GPL-2.0-or-later
// What is read of one cpu record: rules 11, 12 and 17.
ghost use Rattle.std.specs.Prelude.{◌≡◌, IfErr};
ghost use Rattle.cpus.specs.answers.Told.{reading_told};
ghost use Rattle.cpus.specs.answers.Cell.{is_reg, reg_in, phandle_in};
ghost use Rattle.cpus.specs.declared.CpuNumbers.TheVariants.{Regs, Phandles};
ghost use Rattle.cpus.specs.answers.Numbers.{reading_at};

use crate::property::{cell_in, refusal_of, value_in};
use crate::{Cells, CpuNumber, CpuNumbers};
use affinity::is_affine;
use laws::{Refusal, Rule};
use property_index::{INDEX_WORDS, Key, find_indexed};
use tables::{Tables, binding, boards, record_of};

// Whether a number may be a `reg` on a board of a width: a hart id always, an MPIDR with affinity bits alone.
fn is_reg(width: u32, n: u64) -> bool
    ensures { result ≡ is_reg width n }
{
    width == boards::RISCV || is_affine(n)
}

// A value that may be a `reg`.
fn reg_in(width: u32, value: Option<u64>) -> Option<u64>
    ensures { result ≡ reg_in width value }
{
    value.filter(|n| is_reg(width, *n))
}

// A phandle: neither 0 nor 0xFFFFFFFF.
fn phandle_in(value: Option<u64>) -> Option<u64>
    ensures { result ≡ phandle_in value }
{
    value.filter(|h| *h != 0 && *h != 0xFFFFFFFF)
}

// The `reg` of a cpu record, of whose repeat no property is told: rules 11 and 12.
fn read_reg(
    cells: Cells,
    width: u32,
    tables: &Tables,
    index: &[u16; INDEX_WORDS],
    i: usize,
) -> Result<CpuNumber, Refusal>
    ensures reading { reading_told result ≡ reading_at (Regs cells width) tables.now.props.now tables.now.pool.now index.now i }
    ensures place { IfErr result (λ refusal. refusal.place ≡ i) }
{
    let kind = find_indexed(tables.props, index, i, Key::DeviceType);
    if cell_in(tables.pool, kind) != Some(binding::CPU_STRING) {
        return Err(refusal_of(Rule::CpuDeviceType, i, kind));
    }
    let reg = find_indexed(tables.props, index, i, Key::Reg);
    let number = reg_in(width, value_in(tables.pool, cells, reg));
    let value = number.ok_or(refusal_of(Rule::CpuReg, i, reg))?;
    Ok(CpuNumber {
        value,
        property: None,
    })
}

// The phandle of a cpu record, of whose repeat the `phandle` is told: rule 17.
fn read_phandle(tables: &Tables, index: &[u16; INDEX_WORDS], i: usize) -> Result<CpuNumber, Refusal>
    ensures reading { reading_told result ≡ reading_at Phandles tables.now.props.now tables.now.pool.now index.now i }
    ensures place { IfErr result (λ refusal. refusal.place ≡ i) }
{
    let found = find_indexed(tables.props, index, i, Key::Phandle);
    let phandle = phandle_in(cell_in(tables.pool, found));
    let value = phandle.ok_or(refusal_of(Rule::CpuPhandle, i, found))?;
    Ok(CpuNumber {
        value,
        property: record_of(found),
    })
}

// The number of a cpu record, or what the record alone breaks. That the place is i stands in a clause: a type can't know the argument.
pub fn read_record(
    wanted: CpuNumbers,
    tables: &Tables,
    index: &[u16; INDEX_WORDS],
    i: usize,
) -> Result<CpuNumber, Refusal>
    ensures reading { reading_told result ≡ reading_at wanted tables.now.props.now tables.now.pool.now index.now i }
    ensures place { IfErr result (λ refusal. refusal.place ≡ i) }
{
    match wanted {
        CpuNumbers::Regs { cells, width } => read_reg(cells, width, tables, index, i),
        CpuNumbers::Phandles => read_phandle(tables, index, i),
    }
}
