// SPDX-License-Identifier: BSD-2-Clause OR GPL-2.0-or-later
// The two calls of a loader, on bytes.
ghost use Rattle.std.specs.Prelude.{◌≡◌, ◌≤◌, length};
ghost use Rattle.loader.specs.facts.Image.{ImageDemands};
ghost use Rattle.loader.specs.facts.List.{ByteSlotDemands};
ghost use Rattle.loader.specs.answers.Image.{image_answer};
ghost use Rattle.loader.specs.answers.List.{byte_slot};
ghost use Rattle.sunderwath.specs.answers.Answer.{or_short_of, answer_after_of};
ghost use Rattle.sunderwath.specs.answers.Bytes.{reply_size, reply_bytes, image_reply, slot_reply, bytes_behind};

use crate::answer::{ANSWER_SHORT, CLEAR, Told, tell, tell_broken};

// The bytes of an answer: four words.
const REPLY_BYTES: usize = 16;

// Writes the four words at the start of an answer that has room for them, and gives its number.
fn put_reply(answer: &mut [u8], told: Told, last: u32) -> u32
    requires { reply_size ≤ length answer.old }
    ensures number { result ≡ or_short_of reply_size answer.old told.number }
    ensures answer { answer.new ≡ answer_after_of reply_size answer.old (reply_bytes told.number told.place told.second last) }
{
    wire::put_words(answer, &[told.number, told.place, told.second, last]);
    told.number
}

// The same for a refusal: no last word. `put_refused` of the plans writes words, not bytes, and no second place.
fn put_refused(answer: &mut [u8], told: Told) -> u32
    requires { reply_size ≤ length answer.old }
    ensures number { result ≡ or_short_of reply_size answer.old told.number }
    ensures answer { answer.new ≡ answer_after_of reply_size answer.old (reply_bytes told.number told.place told.second 0) }
{
    put_reply(answer, told, 0)
}

// Reads a flattened devicetree: rows as bytes and answer, or the first rule broken.
#[unsafe(no_mangle)]
pub extern "C" fn sunderwath_read_blob(
    width: u32,
    blob: &[u8],
    rows: &mut [u8],
    answer: &mut [u8],
) -> u32
    ensures number { let found = image_answer width blob.now (length rows.old) in
        result ≡ or_short_of reply_size answer.old found.number }
    ensures rows { rows.new ≡ bytes_behind answer.old width blob.now rows.old }
    ensures answer { let found = image_answer width blob.now (length rows.old) in
        answer.new ≡ answer_after_of reply_size answer.old (image_reply found) }
    ensures demands { let found = image_answer width blob.now (length rows.old) in
        (reply_size ≤ length answer.old
        → ImageDemands width blob.now rows.old found rows.new) }
{
    if answer.len() < REPLY_BYTES {
        return ANSWER_SHORT;
    }
    match loader::read_image(width, blob, rows) {
        Ok(board) => put_reply(answer, CLEAR, board.count as u32),
        Err(refusal) => put_refused(answer, tell(refusal)),
    }
}

// The slot of one MPIDR in a list of MPIDRs, eight bytes each.
#[unsafe(no_mangle)]
pub extern "C" fn sunderwath_slot(mpidr: u64, list: &[u8], answer: &mut [u8]) -> u32
    ensures number { result ≡ or_short_of reply_size answer.old (byte_slot mpidr list.now).number }
    ensures answer { answer.new ≡ answer_after_of reply_size answer.old (slot_reply (byte_slot mpidr list.now)) }
    ensures demands { ByteSlotDemands list.now mpidr (byte_slot mpidr list.now) }
{
    if answer.len() < REPLY_BYTES {
        return ANSWER_SHORT;
    }
    match loader::byte_slot(mpidr, list) {
        Ok(slot) => put_reply(answer, CLEAR, slot),
        Err(broken) => put_refused(answer, tell_broken(broken)),
    }
}
