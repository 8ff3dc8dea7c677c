// SPDX-License-Identifier: BSD-2-Clause OR GPL-2.0-or-later
// Reading numbers.
ghost use Rattle.std.specs.Prelude.{◌≡◌};
ghost use Rattle.wire.specs.answers.Read.{number_at};

use crate::NUMBER_BYTES;

// The number in the eight bytes from `at` on; 0 where there are fewer, as its definition has it.
pub fn number_at(bytes: &[u8], at: usize) -> u64
    ensures { result ≡ number_at bytes.now at }
{
    // Tests of a length and a last place that are the same from call to call; the part is known to have its eight bytes.
    if bytes.len() < NUMBER_BYTES {
        return 0;
    }
    if bytes.len() - NUMBER_BYTES < at {
        return 0;
    }
    let Some(number) = bytes[at..at + NUMBER_BYTES].first_chunk::<NUMBER_BYTES>() else {
        return 0;
    };
    u64::from_le_bytes(*number)
}
