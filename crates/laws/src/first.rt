// SPDX-License-Identifier: BSD-2-Clause OR GPL-2.0-or-later
// The lowest place at which a test tells a broken rule.
ghost use Rattle.std.specs.Prelude.{◌≡◌, ◌<◌, ℕ};
ghost use Rattle.laws.specs.answers.Fault.{first_fault};
ghost use Rattle.laws.specs.answers.Told.{number_in, broken_in};

use crate::rules::{Broken, Rule};

// The lowest place below n at which the test tells a broken rule. Inlined, so that the test knows that the place is below n.
#[inline(always)]
pub fn first_broken<F: Fn(usize) -> Result<(), Rule>>(n: usize, check: F) -> Result<(), Broken>
    requires { F.IsAlwaysCallable check }
    ensures { (f : ℕ → ℕ) → ((i : ℕ) (r : _) → i < n → F.post check i r → number_in r ≡ f i) →
        broken_in result ≡ first_fault f n }
{
    for i in 0..n {
        if let Err(rule) = check(i) {
            return Err(rule.broken_at(i));
        }
    }
    Ok(())
}
