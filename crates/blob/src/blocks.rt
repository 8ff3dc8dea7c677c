// SPDX-License-Identifier: BSD-2-Clause OR GPL-2.0-or-later
// Reading the two blocks of a blob: a pass that checks the whole stream and counts, and a pass that fills.
ghost use Rattle.std.specs.Prelude.{◌≡◌, ◌+◌, ◌≤◌, ◌<◌, ◌^◌, IfErr, length};
ghost use Rattle.flat.specs.answers.Told.{blob_told};
ghost use Rattle.flat.specs.answers.Answer.{walk_in, walk_answer, filled_in, filled_over};
ghost use Rattle.blob.specs.steps.Blocks.{blocks, Roomy};

use crate::count::count_answer;
use crate::fill::fill;
use flat::BlobCounts;
use laws::{Broken, Rule};

// Reads the blocks that a sound header names. Nothing is written before the counts are known to fit.
pub fn read_blocks(
    block: &[u8],
    start: usize,
    strings: &[u8],
    base: usize,
    nodes: &mut [u32],
    props: &mut [u32],
) -> Result<BlobCounts, Broken>
    requires sizes { (length block.now ≤ 65536) × (base + length strings.now ≤ 65536) }
    requires room { Roomy (blocks block.now start strings.now base) (length nodes.old) (length props.old) }
    ensures answer { let b = blocks block.now start strings.now base in
        blob_told result ≡ walk_answer (length nodes.old) (length props.old) (walk_in b) }
    ensures nodes { let b = blocks block.now start strings.now base in
        let answer = walk_answer (length nodes.old) (length props.old) (walk_in b) in
        nodes.new ≡ filled_over answer (filled_in b).nodes nodes.old }
    ensures props { let b = blocks block.now start strings.now base in
        let answer = walk_answer (length nodes.old) (length props.old) (walk_in b) in
        props.new ≡ filled_over answer (filled_in b).props props.old }
    ensures place { IfErr result (λ broken. broken.place < 2 ^ 32) }
{
    let w = stream::survey(block, tokens::behind_zero(strings), start).map_err(
        |place| Rule::BlobStructure.broken_at(place),
    )?;
    let counts = count_answer(w, nodes.len(), props.len())?;
    fill(block, w.first, strings, base, nodes, props);
    Ok(counts)
}
