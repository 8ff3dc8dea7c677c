// SPDX-License-Identifier: BSD-2-Clause OR GPL-2.0-or-later
// Zero bytes: the next one, and the last one.
ghost use Rattle.std.specs.Prelude.{◌≡◌};
ghost use Rattle.tokens.specs.answers.Read.{zero_from, behind_zero};

// The first zero byte from a place on, or the end of the bytes; a place behind the end is handed back.
pub fn zero_from(bytes: &[u8], from: usize) -> usize
    ensures { result ≡ zero_from bytes.now from }
{
    let Some(rest) = bytes.get(from..) else {
        return from;
    };
    match rest.iter().position(|b| *b == 0) {
        Some(i) => from + i,
        None => bytes.len(),
    }
}

// The place behind the last zero byte, 0 where there is none.
pub fn behind_zero(bytes: &[u8]) -> usize
    ensures { result ≡ behind_zero bytes.now }
{
    match bytes.iter().rposition(|b| *b == 0) {
        Some(i) => i + 1,
        None => 0,
    }
}
