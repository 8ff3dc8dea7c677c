// SPDX-License-Identifier: BSD-2-Clause OR GPL-2.0-or-later
// Rule 31: length, magic, total size and versions.
ghost use Rattle.std.specs.Prelude.{◌≡◌};
ghost use Rattle.laws.specs.answers.Told.{number_in};
ghost use Rattle.header.specs.answers.Fault.{version_fault, header_fault};

use laws::Rule;
use laws::limits::MAX_BLOB;
use tables::{cell_at, wide};

const HEADER_BYTES: usize = 40;

const MAGIC: u32 = 0xd00dfeed;

const FORMAT_VERSION: u32 = 17;

// Total size and versions.
fn version_fault(blob: &[u8]) -> Result<(), Rule>
    ensures { number_in result ≡ version_fault blob.now }
{
    let total = wide(cell_at(blob, 4));
    let version = cell_at(blob, 20);
    let compatible = cell_at(blob, 24);
    if total < HEADER_BYTES
        || blob.len() < total
        || version < FORMAT_VERSION
        || FORMAT_VERSION < compatible
    {
        return Err(Rule::BlobHeader);
    }
    Ok(())
}

// Whether the header is that of a blob that can be read.
pub fn header_fault(blob: &[u8]) -> Result<(), Rule>
    ensures { number_in result ≡ header_fault blob.now }
{
    if blob.len() < HEADER_BYTES || MAX_BLOB < blob.len() || cell_at(blob, 0) != MAGIC {
        return Err(Rule::BlobHeader);
    }
    version_fault(blob)
}
