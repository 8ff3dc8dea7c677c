// SPDX-License-Identifier: BSD-2-Clause OR GPL-2.0-or-later
// The call on a flattened devicetree.
ghost use Rattle.std.specs.Prelude.{◌≡◌, ◌≤◌, ◌<◌, ◌^◌, IfErr, length};
ghost use Rattle.flat.specs.answers.Told.{blob_told};
ghost use Rattle.flat.specs.facts.Reading.{BlobReading};
ghost use Rattle.flat.specs.answers.Answer.{blob_answer};
ghost use Rattle.sunderwath.specs.answers.Answer.{or_short_of, answer_after_of};
ghost use Rattle.sunderwath.specs.answers.Flat.{flat_size, flat_words, nodes_behind, props_behind};

use crate::answer::{ANSWER_SHORT, tell_broken};
use crate::front::put_front;
use flat::BlobCounts;
use laws::Broken;

// The words of the answer.
const FLAT_WORDS: usize = 4;

// Writes the four words at the start of an answer that has room for them, and gives its number.
fn put_flat(answer: &mut [u32], found: Result<BlobCounts, Broken>) -> u32
    requires room { flat_size ≤ length answer.old }
    requires place { IfErr found (λ broken. broken.place < 2 ^ 32) }
    ensures number { result ≡ (blob_told found).number }
    ensures answer { answer.new ≡ answer_after_of flat_size answer.old (flat_words (blob_told found)) }
{
    match found {
        Ok(counts) => {
            put_front(answer, &[0, 0, counts.nodes, counts.props]);
            0
        }
        Err(broken) => {
            let told = tell_broken(broken);
            put_front(answer, &[told.number, told.place, 0, 0]);
            told.number
        }
    }
}

// Reads a flattened devicetree: the records of its `/cpus` node, or the first rule broken.
#[unsafe(no_mangle)]
pub extern "C" fn sunderwath_read_flat(
    blob: &[u8],
    nodes: &mut [u32],
    props: &mut [u32],
    answer: &mut [u32],
) -> u32
    ensures number { let found = blob_answer blob.now (length nodes.old) (length props.old) in
        result ≡ or_short_of flat_size answer.old found.number }
    ensures nodes { nodes.new ≡ nodes_behind answer.old blob.now nodes.old props.old }
    ensures props { props.new ≡ props_behind answer.old blob.now nodes.old props.old }
    ensures answer { let found = blob_answer blob.now (length nodes.old) (length props.old) in
        answer.new ≡ answer_after_of flat_size answer.old (flat_words found) }
    ensures reading { let found = blob_answer blob.now (length nodes.old) (length props.old) in
        (flat_size ≤ length answer.old
        → BlobReading blob.now nodes.old props.old found nodes.new props.new) }
{
    if answer.len() < FLAT_WORDS {
        return ANSWER_SHORT;
    }
    put_flat(answer, blob::read_blob(blob, nodes, props))
}
