// SPDX-License-Identifier: BSD-2-Clause OR GPL-2.0-or-later
// Words at the start of an answer.
ghost use Rattle.std.specs.Prelude.{◌++◌, ◌≡◌, ◌≤◌, length, drop};

// Writes words at the start of an answer that has room for them. The rest stays.
pub fn put_front(answer: &mut [u32], words: &[u32])
    requires { length words.now ≤ length answer.old }
    ensures { answer.new ≡ words.now ++ drop (length words.now) answer.old }
{
    // No `copy_from_slice`: it calls memmove, and the archive is to call memset alone.
    for (i, word) in words.iter().enumerate() {
        answer[i] = *word;
    }
}
