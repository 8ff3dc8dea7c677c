// SPDX-License-Identifier: BSD-2-Clause OR GPL-2.0-or-later
// A flattened devicetree read into rows of bytes.
ghost use Rattle.std.specs.Prelude.{◌≡◌, ◌*◌, ◌/◌, ◌≤◌, length, take};
ghost use Rattle.laws.specs.facts.Limits.{max_cpus};
ghost use Rattle.layout.specs.facts.Row.{row_size};
ghost use Rattle.wire.specs.facts.Bytes.{word_size, words_in};
ghost use Rattle.tables.specs.facts.Board.{board};
ghost use Rattle.demands.specs.facts.Words.{Words};
ghost use Rattle.demands.specs.facts.Reading.{Demands};
ghost use Rattle.demands.specs.answers.Told.{board_told};
ghost use Rattle.demands.specs.answers.Answer.{answer_of};
ghost use Rattle.loader.specs.facts.Image.{ImageDemands};
ghost use Rattle.loader.specs.answers.Image.{row_bytes, image_answer, image_rows};

use demands::BoardRows;
use laws::Refusal;
use layout::ROW_WORDS;
use tables::wide;
use wire::WORD_BYTES;

// The words of 1,024 node records.
const NODE_ROOM: usize = 3072;

// The words of 1,024 property records.
const PROPERTY_ROOM: usize = 5120;

// Reads the board that a blob's records make. The first `words` words of `table` are its properties; the rows are made in their place, and
// written as bytes where no rule is broken.
fn read_board(
    width: u32,
    nodes: &[u32],
    table: &mut [u32],
    words: usize,
    blob: &[u8],
    rows: &mut [u8],
) -> Result<BoardRows, Refusal>
    requires { row_size * max_cpus ≤ length table.old }
    ensures answer { let b = board width nodes.now (take words table.old) blob.now in
        board_told result ≡ answer_of b (length rows.old / word_size) }
    ensures rows { let b = board width nodes.now (take words table.old) blob.now in
        rows.new ≡ row_bytes b rows.old }
    ensures demands { let b = board width nodes.now (take words table.old) blob.now in
        Demands b (words_in rows.old) (board_told result) (words_in rows.new) }
{
    let room = rows.len() / WORD_BYTES;
    let made = board::read_in_place(width, nodes, table, words, blob, room)?;
    let written = ROW_WORDS * made.count;
    wire::put_words(rows, &table[..written]);
    Ok(made)
}

// Reads a blob into rows of bytes.
pub fn read_image(width: u32, blob: &[u8], rows: &mut [u8]) -> Result<BoardRows, Refusal>
    ensures answer { board_told result ≡ image_answer width blob.now (length rows.old) }
    ensures rows { rows.new ≡ image_rows width blob.now rows.old }
    ensures words { Words (board_told result) }
    ensures demands { ImageDemands width blob.now rows.old (board_told result) rows.new }
{
    // Fixed memory, and counts beside it: there is no heap.
    let mut nodes = [0u32; NODE_ROOM];
    let mut table = [0u32; PROPERTY_ROOM];
    let found = blob::read_blob(blob, &mut nodes, &mut table)?;
    let node_words = 3 * wide(found.nodes);
    let words = 5 * wide(found.props);
    read_board(width, &nodes[..node_words], &mut table, words, blob, rows)
}
