// SPDX-License-Identifier: BSD-2-Clause OR GPL-2.0-or-later
// Rule 32, and where the blocks stand. A sum of two cells is formed as an index, so it does not wrap.
ghost use Rattle.std.specs.Prelude.{◌≡◌};
ghost use Rattle.laws.specs.answers.Told.{number_in};
ghost use Rattle.header.specs.answers.Fault.{block_places, blocks_fault};

use crate::BlockPlaces;
use laws::Rule;
use tables::{cell_at, wide};

// Where the header says that its blocks stand.
pub fn block_places(blob: &[u8]) -> BlockPlaces
    ensures { result ≡ block_places blob.now }
{
    BlockPlaces {
        start: wide(cell_at(blob, 8)),
        size: wide(cell_at(blob, 36)),
        strings: wide(cell_at(blob, 12)),
        names: wide(cell_at(blob, 32)),
    }
}

// Whether both blocks lie within the total size, and the structure block is aligned.
pub fn blocks_fault(blob: &[u8]) -> Result<(), Rule>
    ensures { number_in result ≡ blocks_fault blob.now }
{
    let total = wide(cell_at(blob, 4));
    let found = block_places(blob);
    if total < found.start + found.size
        || total < found.strings + found.names
        || found.start % 4 != 0
        || found.size % 4 != 0
    {
        return Err(Rule::BlobBlocks);
    }
    Ok(())
}
