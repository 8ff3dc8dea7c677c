// SPDX-License-Identifier: BSD-2-Clause OR GPL-2.0-or-later
// What is answered once the stream is known to be whole: 34, 35, or the counts.
ghost use Rattle.std.specs.Prelude.{◌≡◌, ◌≤◌, Ok, MatchResult};
ghost use Rattle.laws.specs.facts.Told.{number_of};
ghost use Rattle.flat.specs.answers.Told.{blob_told};
ghost use Rattle.flat.specs.answers.Answer.{blob_refused, count_answer};

use flat::BlobCounts;
use laws::Rule;
use stream::Walk;

// 34 or 35, for lent tables of so many words, or the counts of the records.
pub fn count_answer(w: Walk, nodes: usize, props: usize) -> Result<BlobCounts, Rule>
    requires { (w.nodes ≤ 65536) × (w.props ≤ 65536) }
    ensures { let told = count_answer nodes props w in
        MatchResult result (λ found. blob_told (Ok found) ≡ told) (λ rule. blob_refused (number_of rule) 0 ≡ told) }
{
    if w.cpus != 1 {
        return Err(Rule::BlobCpus);
    }
    if nodes < 3 * w.nodes || props < 5 * w.props {
        return Err(Rule::TableSpace);
    }
    Ok(BlobCounts {
        nodes: w.nodes as u32,
        props: w.props as u32,
    })
}
