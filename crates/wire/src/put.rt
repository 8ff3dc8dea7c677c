// SPDX-License-Identifier: BSD-2-Clause OR GPL-2.0-or-later
// Writing words.
ghost use Rattle.std.specs.Prelude.{◌≡◌, [], ◌∷◌};
ghost use Rattle.wire.specs.answers.Put.{with_words};

use crate::WORD_BYTES;

// Writes a word at the start of a part. A part shorter than a word stays as it is.
fn put_word(part: &mut [u8], word: u32)
    ensures { part.new ≡ with_words (word ∷ []) part.old }
{
    if let Some(bytes) = part.first_chunk_mut::<WORD_BYTES>() {
        *bytes = word.to_le_bytes();
    }
}

// Writes words at the start of bytes; nothing where there is no room for all of them.
pub fn put_words(bytes: &mut [u8], words: &[u32])
    ensures { bytes.new ≡ with_words words.now bytes.old }
{
    if bytes.len() / WORD_BYTES < words.len() {
        return;
    }
    // By index, since of what `chunks_exact_mut` lent a proof knows only the length.
    for (k, word) in words.iter().enumerate() {
        put_word(&mut bytes[WORD_BYTES * k..], *word);
    }
}
