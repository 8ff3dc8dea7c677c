// SPDX-License-Identifier: BSD-2-Clause OR GPL-2.0-or-later
// Names of nodes and of properties: their length, and that they lie inside the pool.
ghost use Rattle.std.specs.Prelude.{◌≡◌};
ghost use Rattle.records.specs.answers.Check.{sound_name};

use tables::is_inside;

// Whether a name has 1 to `most` bytes and lies inside a pool of so many bytes.
pub fn sound_name(bytes: usize, most: usize, offset: usize, len: usize) -> bool
    ensures { result ≡ sound_name bytes most offset len }
{
    0 < len && len <= most && is_inside(bytes, offset, len)
}
