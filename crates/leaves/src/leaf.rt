// SPDX-License-Identifier: BSD-2-Clause OR GPL-2.0-or-later
// The cpu that a leaf of the map names.
ghost use Rattle.std.specs.Prelude.{◌≡◌, ◌<◌, IfSome, length};
ghost use Rattle.laws.specs.answers.Search.{or_length};
ghost use Rattle.cpus.specs.answers.Cell.{cell_in};
ghost use Rattle.leaves.specs.answers.Check.{index_of};

use cpus::cell_in;
use laws::place_in;
use tables::Found;

// The index of the phandle that a record's `cpu` holds, if it holds one.
pub fn leaf_cpu(pool: &[u8], phandles: &[u64], found: Option<Found>) -> Option<usize>
    ensures index { or_length phandles.now result ≡ index_of phandles.now (cell_in pool.now found) }
    ensures within { IfSome result (λ k. k < length phandles.now) }
{
    let word = cell_in(pool, found)?;
    place_in(phandles, word)
}
