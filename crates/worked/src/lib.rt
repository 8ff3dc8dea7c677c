// SPDX-License-Identifier: BSD-2-Clause OR GPL-2.0-or-later
// No code: the worked cases of 01 are claims about the definitions.
#![tactic(auto)]
