// SPDX-License-Identifier: BSD-2-Clause OR GPL-2.0-or-later
// Writing to standard output.
ghost use Rattle.std.specs.Prelude.{◌≡◌};
ghost use Rattle.laws.specs.answers.Told.{told_in};

use crate::input;
use affinity::Hash;
use laws::Refusal;
use laws::limits::NO_PROPERTY;
use std::io;

// What is told of an answer, in the library's own numbers (the calls for C tell words), whatever it holds where no rule is broken: the
// rule's number and place, and the property's number.
#[derive(Clone, Copy)]
pub struct Told {
    pub number: u32,
    pub place: usize,
    pub second: usize,
}

impl<T: Drop> From<Result<T, Refusal>> for Told {
    ghost from_gives = { λ answer told. record { number = told.number; place = told.place; second = told.second } ≡ told_in answer };

    fn from(answer: Result<T, Refusal>) -> Told {
        match answer {
            Ok(_) => Told {
                number: 0,
                place: 0,
                second: NO_PROPERTY,
            },
            Err(refusal) => Told {
                number: refusal.rule.number(),
                place: refusal.place,
                second: refusal.property.unwrap_or(NO_PROPERTY),
            },
        }
    }
}

// A number, and the next text of standard input after it.
pub fn number(rt: &(impl Input + Print), n: u64) -> io::Result<()> {
    let mut text = [0u8; 96];
    let count = input::bytes(rt, &mut text);
    print!(rt; "{n}")?;
    rt.write_all(&text[..count])
}

pub fn words(rt: &(impl Input + Print), words: &[u32]) -> io::Result<()> {
    for word in words {
        number(rt, u64::from(*word))?;
    }
    Ok(())
}

// The number of the rule that is broken, and its place; 0 and 0 where none is.
pub fn rule(rt: &(impl Input + Print), told: Told) -> io::Result<()> {
    number(rt, u64::from(told.number))?;
    number(rt, told.place as u64)
}

// An answer; its third number is a count or a slot.
pub fn answer(rt: &(impl Input + Print), told: Told, third: usize, hash: Hash) -> io::Result<()> {
    rule(rt, told)?;
    number(rt, third as u64)?;
    number(rt, hash.mask)?;
    words(rt, &hash.shifts)?;
    number(rt, u64::from(hash.bits))
}
