// SPDX-License-Identifier: BSD-2-Clause OR GPL-2.0-or-later
// The calls for C. Each slice is a pointer and a count of elements; include/sunderwath.h says what a caller owes. C lends each by itself,
// so none of them stand in a struct.
#![tactic(auto)]

mod answer;
mod bytes;
mod check;
mod front;
mod image;
mod list;
mod plans;
mod read;
mod slots;
