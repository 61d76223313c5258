//! Which of two word lists comes first, and the rest of the earlier one from the first place where
//! they differ (docs/MACHINE.md, Word lists and their order). specs/ says what the order is; that
//! it is one, total and transitive, is shown in `order_laws`.
#![tactic(auto)]

// Both lists go side by side, as in std's `cmp`; a struct of two would be taken apart in each
// function.

ghost use Rattle.std.specs.Prelude.{◌≡◌, min, length};
ghost use Rattle.std.specs.Ordering.{nat_cmp, min_by_ordering};
ghost use Rattle.order.specs.Order.{word_in, place_of, order_of, part_of, slice_of, from_place, earlier_part};

use std::cmp::Ordering;

/// What `earlier` hands back, in numbers.
#[derive(Clone, Copy, PartialEq, Eq, Debug)]
pub struct Part {
    /// Which list comes first, as `compare` answers it.
    pub order: Ordering,
    /// The place, counted in words from 0, from which on the part is: in the second list where that
    /// comes first, else in the first. It is that list's length where the part is empty.
    pub from: usize,
}

// The word at a place: 0 past the end.
fn word_in(words: &[u16], at: usize) -> u16
    ensures { result ≡ word_in words.now at }
{
    words.get(at).copied().unwrap_or(0)
}

// The first place where they differ; if there is none, the end of the longer.
fn place(first: &[u16], second: &[u16]) -> usize
    ensures { result ≡ place_of first.now second.now }
{
    let end = first.len().max(second.len());
    (0..end)
        .position(|at| word_in(first, at) != word_in(second, at))
        .unwrap_or(end)
}

// The order of the words at a place: the smaller comes first.
fn order_at(first: &[u16], second: &[u16], at: usize) -> Ordering
    ensures { result ≡ nat_cmp (word_in first.now at) (word_in second.now at) }
{
    word_in(first, at).cmp(&word_in(second, at))
}

// The place, or the list's end if it is over there.
fn within(words: &[u16], at: usize) -> usize
    ensures { result ≡ min at (length words.now) }
{
    at.min(words.len())
}

// The list from a place on; its empty end if it is over there.
fn tail(words: &[u16], at: usize) -> &[u16]
    ensures { slice_of result ≡ from_place (slice_of words.entry) (min at (length words.now)) }
{
    let from = within(words, at);
    &words[from..]
}

// The earlier of the two; the first where they are equal.
fn earlier_list<'a>(order: Ordering, first: &'a [u16], second: &'a [u16]) -> &'a [u16]
    ensures { slice_of result ≡ min_by_ordering order (slice_of first.entry) (slice_of second.entry) }
{
    match order {
        Ordering::Less | Ordering::Equal => first,
        Ordering::Greater => second,
    }
}

/// Which of the two comes first: `Less` the first, `Greater` the second. `Equal` lists differ in
/// trailing zeros only. Lists of any lengths are compared.
pub fn compare(first: &[u16], second: &[u16]) -> Ordering
    ensures { result ≡ order_of first.now second.now }
{
    order_at(first, second, place(first, second))
}

/// The part of the earlier list from the first place where they differ on: its empty end if it is
/// over there, and that of the first if they are equal.
pub fn earlier<'a>(first: &'a [u16], second: &'a [u16]) -> &'a [u16]
    ensures { slice_of result ≡ earlier_part (slice_of first.entry) (slice_of second.entry) }
{
    let at = place(first, second);
    let order = order_at(first, second, at);
    tail(earlier_list(order, first, second), at)
}

/// The part that `earlier` hands back, in numbers, for a host.
pub fn earlier_part(first: &[u16], second: &[u16]) -> Part
    ensures { result ≡ part_of first.now second.now }
{
    let at = place(first, second);
    let order = order_at(first, second, at);
    let from = within(earlier_list(order, first, second), at);
    Part { order, from }
}
