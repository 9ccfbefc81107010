//! The box of a node of a branch and bound tree.

ghost use Rattle.std.specs.Prelude.{◌≡◌, ◌<◌, ◌≤◌, ◌-◌, ◌↔◌, nat_lt, true, map, length, slice_index, Some, IfOk, IsTrue, replicate};
ghost use Rattle.std.specs.Option.{MatchOption, ForSome};
ghost use Rattle.um_model.specs.Values.{plain_column, plain_set, SetValue};
ghost use Rattle.um_model.specs.WellFormed.{AtPlace, IsWithin, has_arc};
ghost use Rattle.um_model.specs.Boxes.{root, ends_at, ends_of, span_at, is_shut_out, IsVoid, IsFirstCrossed};
ghost use Rattle.um_model.specs.Branches.{kind_of, set_kind_of};
ghost use Rattle.um_box.specs.NodeBoxes.{HasCurveEnds, put_ends, put_first, put_last};
ghost use Rattle.um_box.specs.Undos.{undone, Belongs, Undoes};
ghost use Rattle.um_model.specs.declared.deck.Column.{Column};
ghost use Rattle.um_model.specs.declared.deck.OrderedSet.{OrderedSet};
ghost use Rattle.um_model.specs.declared.limits.TheConstants.{MOST_END, MOST_ARC_END};

use crate::comparisons::is_crossed;
use crate::counts::{move_first, move_last};
use crate::limits::{Ends, Span};
use crate::undo::{Replaced, Undo};
use std::alloc::Global;
use std::marker::Model;
use um_deck::{Column, Deck, Kind, OrderedSet, SetKind};
use um_num::{List, Memory};

/// A box of a deck: ends for each column, and an interval for each set.
#[derive(Drop)]
pub struct NodeBox<'d> {
    deck: &'d Deck,
    ends: List<Ends>,
    spans: List<Span>,
    /// For each column, how often it is a member of a set outside the set's interval.
    counts: List<u32>,
}

impl<'d> Model for NodeBox<'d> {
    ghost use Rattle.um_box.specs.NodeBoxes.{NodeBoxValue};

    ghost Value = { NodeBoxValue };

    ghost use Rattle.um_box.specs.ShutOut.{IsCounted};

    ghost view = { λ b. record { deck = b.deck.now; limits = record { ends = b.ends.items; spans = b.spans.items } } };

    ghost invariant = { λ b. IsCounted (record { deck = b.deck.now; limits = record { ends = b.ends.items; spans = b.spans.items } }) b.counts.items };
}

impl<'d> NodeBox<'d> {
    ghost use Rattle.um_box.specs.NodeBoxes.{IsNodeBox};

    /// The deck's own ends and whole sets. The error is want of memory.
    pub fn root(alloc: Global, deck: &'d Deck) -> Result<NodeBox<'d>, Memory>
        ensures { IfOk result (λ b. b ≡ record { deck = deck.now; limits = root deck.now }) }
    {
        let columns = deck.columns();
        let ends = own_ends(alloc, columns)?;
        let spans = whole_sets(alloc, deck.sets())?;
        let counts = zeros(alloc, columns.len())?;
        deck.known();
        Ok(NodeBox {
            deck,
            ends,
            spans,
            counts,
        })
    }

    /// The same box once more. The error is want of memory.
    pub(crate) fn copy(&self, alloc: Global) -> Result<NodeBox<'d>, Memory>
        ensures { IfOk result (λ b. b ≡ self.now) }
    {
        let ends = List::from_slice(alloc, self.ends.as_slice())?;
        let spans = List::from_slice(alloc, self.spans.as_slice())?;
        let counts = List::from_slice(alloc, self.counts.as_slice())?;
        Ok(NodeBox {
            deck: self.deck,
            ends,
            spans,
            counts,
        })
    }

    /// What each box keeps.
    pub fn known(&self)
        ensures { IsNodeBox self.now }
    {
        let _ = &self.ends;
    }

    /// The deck whose box this is.
    pub fn deck(&self) -> &Deck
        ensures { result.now ≡ self.now.deck }
    {
        self.deck
    }

    /// The low and the high end of a column, in thousandths; `None` is infinite. A member outside its
    /// set's interval has the high end 0.
    pub fn ends(&self, column: u32) -> (Option<i64>, Option<i64>)
        requires { column < length self.now.deck.columns }
        ensures { result ≡ ((ends_of self.now.deck self.now.limits column).low, (ends_of self.now.deck self.now.limits column).high) }
    {
        let ends = self.kept_ends(column);
        if self.is_shut_out(column) {
            (ends.low, Some(0))
        } else {
            (ends.low, ends.high)
        }
    }

    /// The ends of a column but for sets.
    pub(crate) fn kept_ends(&self, column: u32) -> Ends
        requires { column < length self.now.deck.columns }
        ensures { result ≡ ends_at self.now.limits column }
    {
        self.ends.as_slice()[column as usize]
    }

    fn is_shut_out(&self, column: u32) -> bool
        requires { column < length self.now.deck.columns }
        ensures { result ≡ is_shut_out self.now.deck self.now.limits column }
    {
        0 < self.counts.as_slice()[column as usize]
    }

    /// The first and the last position of a set's interval, counted from 0. Members outside it are 0.
    pub fn span(&self, set: u32) -> (u32, u32)
        requires { set < length self.now.deck.sets }
        ensures { result ≡ ((span_at self.now.limits set).first, (span_at self.now.limits set).last) }
    {
        self.deck.known();
        let span = self.spans.as_slice()[set as usize];
        (span.first as u32, span.last as u32)
    }

    /// The first column whose low end is above its high end; `None` where the box is not void.
    pub fn void(&self) -> Option<u32>
        ensures { MatchOption result (IsVoid self.now.deck self.now.limits → ⊥) (IsFirstCrossed self.now.deck self.now.limits) }
    {
        self.deck.known();
        for index in 0..self.ends.len() {
            let column = index as u32;
            let (low, high) = self.ends(column);
            if is_crossed(low, high) {
                return Some(column);
            }
        }
        None
    }

    /// The kind of a column, where there is such a column.
    pub(crate) fn kind(&self, column: u32) -> Option<Kind>
        ensures { result ≡ kind_of self.now.deck column }
    {
        self.deck
            .columns()
            .get(column as usize)
            .map(|column| column.kind)
    }

    /// The kind of a set, where there is such a set.
    pub(crate) fn set_kind(&self, set: u32) -> Option<SetKind>
        ensures { result ≡ set_kind_of self.now.deck set }
    {
        self.deck.sets().get(set as usize).map(|set| set.kind)
    }

    /// Gives a column other ends.
    pub(crate) fn put_ends(&mut self, column: u32, ends: Ends) -> Undo
        requires inside { column < length self.old.deck.columns }
        requires low { ForSome ends.low (IsWithin MOST_END) }
        requires high { ForSome ends.high (IsWithin MOST_END) }
        requires curve { has_arc self.old.deck.arcs column ≡ true → HasCurveEnds ends }
        ensures node { self.new ≡ put_ends self.old column ends }
        ensures undo { Undoes result self.old self.new }
    {
        let place = column as usize;
        let Ends { low, high } = self.kept_ends(column);
        *self.ends.at_mut(place) = ends;
        Undo {
            replaced: Replaced::OldEnds { column, low, high },
        }
    }

    /// Gives a column another low end.
    pub(crate) fn put_low(&mut self, column: u32, low: i64) -> Undo
        requires inside { column < length self.old.deck.columns }
        requires size { IsWithin MOST_END low }
        requires curve { has_arc self.old.deck.arcs column ≡ true → IsWithin MOST_ARC_END low }
        ensures node { self.new ≡ put_ends self.old column (record { low = Some low; high = (ends_at self.old.limits column).high }) }
        ensures undo { Undoes result self.old self.new }
    {
        self.known();
        let old = self.kept_ends(column);
        let ends = Ends {
            low: Some(low),
            high: old.high,
        };
        self.put_ends(column, ends)
    }

    /// Gives a column another high end.
    pub(crate) fn put_high(&mut self, column: u32, high: i64) -> Undo
        requires inside { column < length self.old.deck.columns }
        requires size { IsWithin MOST_END high }
        requires curve { has_arc self.old.deck.arcs column ≡ true → IsWithin MOST_ARC_END high }
        ensures node { self.new ≡ put_ends self.old column (record { low = (ends_at self.old.limits column).low; high = Some high }) }
        ensures undo { Undoes result self.old self.new }
    {
        self.known();
        let old = self.kept_ends(column);
        let ends = Ends {
            low: old.low,
            high: Some(high),
        };
        self.put_ends(column, ends)
    }

    /// Gives a set's interval another first position.
    pub(crate) fn put_first(&mut self, set: u32, first: usize) -> Undo
        requires inside { set < length self.old.deck.sets }
        requires order { first ≤ (span_at self.old.limits set).last }
        ensures node { self.new ≡ put_first self.old set first }
        ensures undo { Undoes result self.old self.new }
    {
        self.deck.known();
        let place = set as usize;
        let old = self.spans.as_slice()[place];
        let Span {
            first: position,
            last,
        } = old;
        let members = self.deck.sets()[place].members.as_slice();
        move_first(&mut self.counts, members, old, first);
        *self.spans.at_mut(place) = Span { first, last };
        Undo {
            replaced: Replaced::OldFirst { set, position },
        }
    }

    /// Gives a set's interval another last position.
    pub(crate) fn put_last(&mut self, set: u32, last: usize) -> Undo
        requires inside { set < length self.old.deck.sets }
        requires order { (span_at self.old.limits set).first ≤ last }
        requires last { (s : SetValue) → AtPlace self.old.deck.sets set s → last < length s.members }
        ensures node { self.new ≡ put_last self.old set last }
        ensures undo { Undoes result self.old self.new }
    {
        self.deck.known();
        let place = set as usize;
        let old = self.spans.as_slice()[place];
        let Span {
            first,
            last: position,
        } = old;
        let members = self.deck.sets()[place].members.as_slice();
        move_last(&mut self.counts, members, old, last);
        *self.spans.at_mut(place) = Span { first, last };
        Undo {
            replaced: Replaced::OldLast { set, position },
        }
    }
}

/// The ends that columns have by themselves.
fn own_ends(alloc: Global, columns: &[Column]) -> Result<List<Ends>, Memory>
    ensures { IfOk result (λ ends. ends.items ≡ map (λ (c : Column). record { low = c.low; high = c.high }) columns.now) }
{
    let mut ends = List::new(alloc);
    for column in columns {
        ends.push(Ends {
            low: column.low,
            high: column.high,
        })?;
    }
    Ok(ends)
}

/// The intervals of whole sets.
fn whole_sets(alloc: Global, sets: &[OrderedSet]) -> Result<List<Span>, Memory>
    ensures { IfOk result (λ spans. spans.items ≡ map (λ (s : OrderedSet). record { first = 0; last = length s.members.items - 1 }) sets.now) }
{
    let mut spans = List::new(alloc);
    for set in sets {
        spans.push(whole_set(set))?;
    }
    Ok(spans)
}

fn whole_set(set: &OrderedSet) -> Span
    ensures { result ≡ record { first = 0; last = length set.now.members.items - 1 } }
{
    Span {
        first: 0,
        last: set.members.len().saturating_sub(1),
    }
}

/// A count of 0 for each of so many columns.
fn zeros(alloc: Global, columns: usize) -> Result<List<u32>, Memory>
    ensures { IfOk result (λ counts. counts.items ≡ replicate columns 0) }
{
    let mut counts = List::new(alloc);
    for _ in 0..columns {
        counts.push(0)?;
    }
    Ok(counts)
}
