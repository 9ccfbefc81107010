//! Branches of a box: when one fits, what its children are, and how they are entered and left.

ghost use Rattle.std.specs.Prelude.{◌≡◌, ◌<◌, ◌↔◌, IfOk, IsTrue};
ghost use Rattle.um_model.specs.WellFormed.{IsWithin, has_arc};
ghost use Rattle.um_model.specs.Branches.{Fits, threshold_of, FitsInt, FitsCut, FitsSemi, FitsOne, FitsTwo};
ghost use Rattle.um_model.specs.declared.limits.TheConstants.{MOST_END};
ghost use Rattle.um_box.specs.NodeBoxes.{entered};
ghost use Rattle.um_box.specs.Undos.{undone, Belongs, Undoes};

use crate::NodeBox;
use crate::comparisons::{is_above, is_above_whole, is_below, is_below_next, is_zero};
use crate::limits::Ends;
use crate::undo::{Replaced, Undo};
use std::alloc::Global;
use um_deck::{Arc, Kind, SetKind};
use um_model::{Branch, Side};
use um_num::Memory;

impl<'d> NodeBox<'d> {
    /// Whether the branch cuts this box. One on a column or a set that is not in the deck does not.
    pub fn fits(&self, branch: &Branch) -> bool
        ensures { IsTrue result ↔ Fits self.now.deck self.now.limits branch.now }
    {
        match *branch {
            Branch::Int { column, below } => self.fits_int(column, below),
            Branch::Cut { column, at } => self.fits_cut(column, at),
            Branch::Semi { column } => self.fits_semi(column),
            Branch::One { set, at } => self.fits_one(set, at),
            Branch::Two { set, at } => self.fits_two(set, at),
        }
    }

    fn fits_int(&self, column: u32, below: i64) -> bool
        ensures { IsTrue result ↔ FitsInt self.now.deck self.now.limits column below }
    {
        match self.kind(column) {
            Some(Kind::Integer) => {
                let (low, high) = self.ends(column);
                is_below_next(low, below) && is_above_whole(high, below)
            }
            _ => false,
        }
    }

    fn fits_cut(&self, column: u32, at: i64) -> bool
        ensures { IsTrue result ↔ FitsCut self.now.deck self.now.limits column at }
    {
        if self.deck().columns().len() <= column as usize || !has_arc(self.deck().arcs(), column) {
            return false;
        }
        let (low, high) = self.ends(column);
        is_below(low, at) && is_above(high, at)
    }

    fn fits_semi(&self, column: u32) -> bool
        ensures { IsTrue result ↔ FitsSemi self.now.deck self.now.limits column }
    {
        match self.kind(column) {
            Some(Kind::Semi(threshold)) => {
                let (low, high) = self.ends(column);
                0 < threshold && is_zero(low) && is_above(high, 0)
            }
            _ => false,
        }
    }

    fn fits_one(&self, set: u32, at: u32) -> bool
        ensures { IsTrue result ↔ FitsOne self.now.deck self.now.limits set at }
    {
        match self.set_kind(set) {
            Some(SetKind::S1) => {
                let (first, last) = self.span(set);
                first <= at && at < last
            }
            _ => false,
        }
    }

    fn fits_two(&self, set: u32, at: u32) -> bool
        ensures { IsTrue result ↔ FitsTwo self.now.deck self.now.limits set at }
    {
        match self.set_kind(set) {
            Some(SetKind::S2) => {
                let (first, last) = self.span(set);
                first < at && at < last
            }
            _ => false,
        }
    }

    /// The box of one of the branch's two children. The error is want of memory.
    pub fn child(&self, alloc: Global, branch: &Branch, side: Side) -> Result<NodeBox<'d>, Memory>
        requires { Fits self.now.deck self.now.limits branch.now }
        ensures { IfOk result (λ b. b ≡ entered self.now branch.now side) }
    {
        let mut child = self.copy(alloc)?;
        let _ = child.enter(branch, side);
        Ok(child)
    }

    /// Goes to one of the branch's two children in place. Takes no memory, and costs what it changes: one
    /// column's ends, or the members that leave a set's interval.
    pub fn enter(&mut self, branch: &Branch, side: Side) -> Undo
        requires { Fits self.old.deck self.old.limits branch.now }
        ensures child { self.new ≡ entered self.old branch.now side }
        ensures undo { Undoes result self.old self.new }
    {
        match *branch {
            Branch::Int { column, below } => self.enter_int(column, below, side),
            Branch::Cut { column, at } => self.enter_cut(column, at, side),
            Branch::Semi { column } => self.enter_semi(column, side),
            Branch::One { set, at } => self.enter_one(set, at, side),
            Branch::Two { set, at } => self.enter_two(set, at, side),
        }
    }

    /// Goes back to the box that the `enter` of this undo left: the last `enter` that is not left yet.
    pub fn leave(&mut self, undo: Undo)
        requires { Belongs undo self.old }
        ensures { self.new ≡ undone undo self.old }
    {
        let _ = match undo.replaced {
            Replaced::OldEnds { column, low, high } => self.put_ends(column, Ends { low, high }),
            Replaced::OldFirst { set, position } => self.put_first(set, position),
            Replaced::OldLast { set, position } => self.put_last(set, position),
        };
    }

    /// The threshold of a semicontinuous column, in thousandths.
    fn threshold(&self, column: u32) -> i64
        ensures value { result ≡ threshold_of self.now.deck column }
        ensures size { IsWithin MOST_END result }
    {
        self.deck().known();
        match self.kind(column) {
            Some(Kind::Semi(threshold)) => threshold,
            _ => 0,
        }
    }

    fn enter_int(&mut self, column: u32, below: i64, side: Side) -> Undo
        requires { FitsInt self.old.deck self.old.limits column below }
        ensures child { self.new ≡ entered self.old (Branch.Int column below) side }
        ensures undo { Undoes result self.old self.new }
    {
        self.known();
        match side {
            Side::Left => self.put_high(column, 1000 * below),
            Side::Right => self.put_low(column, 1000 * (below + 1)),
        }
    }

    fn enter_cut(&mut self, column: u32, at: i64, side: Side) -> Undo
        requires { FitsCut self.old.deck self.old.limits column at }
        ensures child { self.new ≡ entered self.old (Branch.Cut column at) side }
        ensures undo { Undoes result self.old self.new }
    {
        self.known();
        match side {
            Side::Left => self.put_high(column, at),
            Side::Right => self.put_low(column, at),
        }
    }

    fn enter_semi(&mut self, column: u32, side: Side) -> Undo
        requires { FitsSemi self.old.deck self.old.limits column }
        ensures child { self.new ≡ entered self.old (Branch.Semi column) side }
        ensures undo { Undoes result self.old self.new }
    {
        self.deck().known();
        let threshold = self.threshold(column);
        match side {
            Side::Left => self.put_ends(
                column,
                Ends {
                    low: Some(0),
                    high: Some(0),
                },
            ),
            Side::Right => self.put_low(column, threshold),
        }
    }

    fn enter_one(&mut self, set: u32, at: u32, side: Side) -> Undo
        requires { FitsOne self.old.deck self.old.limits set at }
        ensures child { self.new ≡ entered self.old (Branch.One set at) side }
        ensures undo { Undoes result self.old self.new }
    {
        self.known();
        match side {
            Side::Left => self.put_last(set, at as usize),
            Side::Right => self.put_first(set, at as usize + 1),
        }
    }

    fn enter_two(&mut self, set: u32, at: u32, side: Side) -> Undo
        requires { FitsTwo self.old.deck self.old.limits set at }
        ensures child { self.new ≡ entered self.old (Branch.Two set at) side }
        ensures undo { Undoes result self.old self.new }
    {
        self.known();
        match side {
            Side::Left => self.put_last(set, at as usize),
            Side::Right => self.put_first(set, at as usize),
        }
    }
}

/// Whether the column has an arc.
fn has_arc(arcs: &[Arc], column: u32) -> bool
    ensures { result ≡ has_arc arcs.now column }
{
    arcs.iter().any(|arc| arc.column == column)
}
