//! How often sets hold columns at 0: a count for each column, kept as intervals move.

ghost use Rattle.std.specs.Prelude.{◌≡◌, ℕ, ◌+◌, ◌^◌, ◌<◌, ◌≤◌, length, slice_index, All};
ghost use Rattle.um_box.specs.ShutOut.{times_in, times_outside};
ghost use Rattle.um_model.specs.declared.deck.Member.{Member};

use crate::limits::Span;
use um_deck::Member;
use um_num::List;

/// Counts the column of each of these members once more.
fn shut_out(counts: &mut List<u32>, members: &[Member])
    requires columns { All (λ (m : Member). m.column < length counts.old.items) members.now }
    requires room { (column : ℕ) → column < length counts.old.items → slice_index counts.old.items column + times_in members.now column < 2 ^ 32 }
    ensures length { length counts.new.items ≡ length counts.old.items }
    ensures counts { (column : ℕ) → column < length counts.old.items → slice_index counts.new.items column ≡ slice_index counts.old.items column + times_in members.now column }
{
    for member in members {
        *counts.at_mut(member.column as usize) += 1;
    }
}

/// Counts the column of each of these members once less.
fn let_in(counts: &mut List<u32>, members: &[Member])
    requires columns { All (λ (m : Member). m.column < length counts.old.items) members.now }
    requires counted { (column : ℕ) → column < length counts.old.items → times_in members.now column ≤ slice_index counts.old.items column }
    ensures length { length counts.new.items ≡ length counts.old.items }
    ensures counts { (column : ℕ) → column < length counts.old.items → slice_index counts.new.items column + times_in members.now column ≡ slice_index counts.old.items column }
{
    for member in members {
        *counts.at_mut(member.column as usize) -= 1;
    }
}

/// Counts a set's members anew where its interval gets another first position.
pub(crate) fn move_first(counts: &mut List<u32>, members: &[Member], span: Span, first: usize)
    requires columns { All (λ (m : Member). m.column < length counts.old.items) members.now }
    requires room { (column : ℕ) → column < length counts.old.items → slice_index counts.old.items column + length members.now < 2 ^ 32 }
    requires counted { (column : ℕ) → column < length counts.old.items → times_outside span members.now column ≤ slice_index counts.old.items column }
    requires old { span.first ≤ span.last }
    requires new { first ≤ span.last }
    requires last { span.last < length members.now }
    ensures length { length counts.new.items ≡ length counts.old.items }
    ensures counts { (column : ℕ) → column < length counts.old.items → slice_index counts.new.items column + times_outside span members.now column ≡ slice_index counts.old.items column + times_outside (record { first = first; last = span.last }) members.now column }
{
    if first < span.first {
        let_in(counts, &members[first..span.first]);
    } else {
        shut_out(counts, &members[span.first..first]);
    }
}

/// Counts a set's members anew where its interval gets another last position.
pub(crate) fn move_last(counts: &mut List<u32>, members: &[Member], span: Span, last: usize)
    requires columns { All (λ (m : Member). m.column < length counts.old.items) members.now }
    requires room { (column : ℕ) → column < length counts.old.items → slice_index counts.old.items column + length members.now < 2 ^ 32 }
    requires counted { (column : ℕ) → column < length counts.old.items → times_outside span members.now column ≤ slice_index counts.old.items column }
    requires old { span.first ≤ span.last }
    requires new { span.first ≤ last }
    requires last { span.last < length members.now }
    requires new_last { last < length members.now }
    ensures length { length counts.new.items ≡ length counts.old.items }
    ensures counts { (column : ℕ) → column < length counts.old.items → slice_index counts.new.items column + times_outside span members.now column ≡ slice_index counts.old.items column + times_outside (record { first = span.first; last = last }) members.now column }
{
    if span.last < last {
        let_in(counts, &members[span.last + 1..last + 1]);
    } else {
        shut_out(counts, &members[last + 1..span.last + 1]);
    }
}
