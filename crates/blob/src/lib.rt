// SPDX-License-Identifier: BSD-2-Clause OR GPL-2.0-or-later
// The reader of a flattened devicetree: a blob in, the records of its `/cpus` node out, or the number and the place of the first rule broken.
#![tactic(auto)]

mod blocks;
mod count;
mod ends;
mod fill;
mod put;

ghost use Rattle.std.specs.Prelude.{◌≡◌, ◌<◌, ◌^◌, IfErr, length};
ghost use Rattle.flat.specs.answers.Told.{blob_told};
ghost use Rattle.flat.specs.facts.Reading.{BlobReading};
ghost use Rattle.flat.specs.answers.Answer.{blob_answer, nodes_after, props_after};

use blocks::read_blocks;
use flat::BlobCounts;
use laws::Broken;

// Reads a blob. The blob is the pool of the records: offsets count from its start.
pub fn read_blob(blob: &[u8], nodes: &mut [u32], props: &mut [u32]) -> Result<BlobCounts, Broken>
    ensures answer { blob_told result ≡ blob_answer blob.now (length nodes.old) (length props.old) }
    ensures nodes { nodes.new ≡ nodes_after blob.now nodes.old (length props.old) }
    ensures props { props.new ≡ props_after blob.now (length nodes.old) props.old }
    ensures reading { BlobReading blob.now nodes.old props.old (blob_told result) nodes.new props.new }
    ensures place { IfErr result (λ broken. broken.place < 2 ^ 32) }
{
    header::header_fault(blob)?;
    header::blocks_fault(blob)?;
    let found = header::block_places(blob);
    let end = found.start + found.size;
    let base = found.strings;
    let limit = base + found.names;
    read_blocks(
        &blob[..end],
        found.start,
        &blob[base..limit],
        base,
        nodes,
        props,
    )
}
