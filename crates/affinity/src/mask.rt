// SPDX-License-Identifier: BSD-2-Clause OR GPL-2.0-or-later
// The mask of a list of MPIDRs.
ghost use Rattle.std.specs.Prelude.{◌≡◌};
ghost use Rattle.affinity.specs.steps.Mask.{gathered};
ghost use Rattle.affinity.specs.answers.Mask.{mask_of};
ghost use Rattle.affinity.specs.facts.Mask.{IsMask};

// What one pass over a list gives: the or of all of it, and its mask.
#[derive(Clone, Copy)]
pub struct Gathered {
    pub some: u64,
    pub mask: u64,
}

// Each bit in which some two of the list differ. 0 for an empty list.
pub fn mask_of(list: &[u64]) -> u64
    ensures answer { result ≡ mask_of list.now }
    ensures mask { IsMask list.now result }
{
    gather(list).mask
}

// A bit in which two differ is a one in some of the list, and not in all.
pub fn gather(list: &[u64]) -> Gathered
    ensures { result ≡ gathered list.now }
{
    let mut some: u64 = 0;
    let mut all: u64 = u64::MAX;
    for mpidr in list {
        some |= *mpidr;
        all &= *mpidr;
    }
    Gathered {
        some,
        mask: some & !all,
    }
}
