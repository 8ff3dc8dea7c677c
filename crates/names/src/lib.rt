// SPDX-License-Identifier: BSD-2-Clause OR GPL-2.0-or-later
// Names in the map: a socket, a cluster, a core or a thread with its number, or none of these.
#![tactic(auto)]

ghost use Rattle.std.specs.Prelude.{◌≡◌};
ghost use Rattle.names.specs.facts.Kind.{Says};
ghost use Rattle.names.specs.answers.Name.{number_of, name_of};
ghost use Rattle.names.specs.steps.Name.{number_after};

// What a name says. Other, and no Option of a name: the facts (`Says`) speak of five kinds.
#[derive(Clone, Copy)]
pub enum TopologyName {
    Socket(u32),
    Cluster(u32),
    Core(u32),
    Thread(u32),
    Other,
}

// The number that one to four decimal digits write, with no leading zero except 0 itself.
fn number_of(digits: &[u8]) -> Option<u32>
    ensures { result ≡ number_of digits.now }
{
    let n = digits.len();
    if n == 0 || 4 < n {
        return None;
    }
    if 1 < n && digits[0] == b'0' {
        return None;
    }
    let mut value = 0;
    for digit in digits {
        if !digit.is_ascii_digit() {
            return None;
        }
        value = value * 10 + u32::from(*digit - b'0');
    }
    Some(value)
}

// The number that follows a word, where the name begins with it.
fn number_after(name: &[u8], word: &[u8]) -> Option<u32>
    ensures { result ≡ number_after word.now name.now }
{
    let (start, digits) = name.split_at_checked(word.len())?;
    // Not by `strip_prefix`, which was slower: it goes on behind the first byte that differs.
    if start.iter().zip(word).any(|(a, b)| a != b) {
        return None;
    }
    number_of(digits)
}

// What a name says. No two of the words begin the same name.
pub fn name_of(name: &[u8]) -> TopologyName
    ensures answer { result ≡ name_of name.now }
    ensures says { Says name.now result }
{
    if let Some(n) = number_after(name, b"socket") {
        return TopologyName::Socket(n);
    }
    if let Some(n) = number_after(name, b"cluster") {
        return TopologyName::Cluster(n);
    }
    if let Some(n) = number_after(name, b"core") {
        return TopologyName::Core(n);
    }
    if let Some(n) = number_after(name, b"thread") {
        return TopologyName::Thread(n);
    }
    TopologyName::Other
}
