// SPDX-License-Identifier: BSD-2-Clause OR GPL-2.0-or-later
// Which key a property's name is.
ghost use Rattle.std.specs.Prelude.{◌≡◌};
ghost use Rattle.property_index.specs.answers.Index.{key_of};
ghost use Rattle.property_index.specs.steps.KeyOrNone.{key_or_none};

use crate::Key;
use tables::range_names;

// The key that a name is, if any.
pub fn key_of(pool: &[u8], offset: usize, len: usize) -> Option<Key>
    ensures { key_or_none result ≡ key_of pool.now offset len }
{
    if range_names(pool, offset, len, b"reg") {
        return Some(Key::Reg);
    }
    if range_names(pool, offset, len, b"cpu") {
        return Some(Key::Cpu);
    }
    if range_names(pool, offset, len, b"phandle") {
        return Some(Key::Phandle);
    }
    if range_names(pool, offset, len, b"device_type") {
        return Some(Key::DeviceType);
    }
    None
}
