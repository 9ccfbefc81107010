//! The verdict on an answer.

ghost use Rattle.std.specs.Prelude.{◌≡◌, IfOk};
ghost use Rattle.um_model.specs.Accepted.{IsVerdict};
ghost use Rattle.um_model.specs.AnswerValues.{plain_answer};
ghost use Rattle.um_model.specs.Checkable.{IsCheckable};
ghost use Rattle.um_check.specs.Judging.{BeforeTree};

use crate::fields::{do_fields_go, has_tree, is_tolerance};
use crate::nodes::on_nodes;
use crate::point::{are_numbers_small, has_objective, is_point_feasible};
use crate::rays::does_ray_hold;
use crate::walk::Walk;
use std::alloc::Global;
use std::marker::Model;
use um_deck::Deck;
use um_model::{Answer, Reason, Verdict};
use um_num::Memory;

/// Checks answers against one deck.
#[derive(Drop)]
pub struct Checker<'d> {
    /// At its start between two verdicts.
    walk: Walk<'d>,
}

impl<'d> Model for Checker<'d> {
    ghost use Rattle.std.specs.Prelude.{◌≡◌};
    ghost use Rattle.um_model.specs.Values.{DeckValue};
    ghost use Rattle.um_check.specs.Walks.{start_of};

    ghost Value = { DeckValue };

    ghost view = { λ checker. checker.walk.deck };

    ghost invariant = { λ checker. checker.walk ≡ start_of checker.walk.deck };
}

impl<'d> Checker<'d> {
    /// Takes room for the largest tree; the error is want of memory.
    pub fn new(alloc: Global, deck: &'d Deck) -> Result<Checker<'d>, Memory>
        ensures { IfOk result (λ checker. checker ≡ deck.now) }
    {
        let walk = Walk::new(alloc, deck)?;
        Ok(Checker { walk })
    }

    /// Yes exactly where the answer is accepted, and else the first reason against it, with the place of
    /// its node. Takes no memory.
    pub fn verdict(&mut self, answer: &Answer) -> Verdict
        requires checkable { IsCheckable self.old (plain_answer answer.now) }
        ensures verdict { IsVerdict self.old (plain_answer answer.now) result }
        ensures deck { self.new ≡ self.old }
    {
        if let Some(reason) = before_tree(self.walk.deck(), answer) {
            return Verdict::No { node: None, reason };
        }
        if !has_tree(answer.kind) {
            return Verdict::Yes;
        }
        answer.tree.known();
        let verdict = on_nodes(&mut self.walk, answer, answer.tree.nodes());
        self.walk.restart();
        verdict
    }
}

/// The first reason that is found before the tree is looked at.
fn before_tree(deck: &Deck, answer: &Answer) -> Option<Reason>
    requires checkable { IsCheckable deck.now (plain_answer answer.now) }
    ensures { BeforeTree deck.now (plain_answer answer.now) result }
{
    if !is_tolerance(deck, answer) {
        return Some(Reason::Tolerance);
    }
    if !do_fields_go(answer) {
        return Some(Reason::Fields);
    }
    if !are_numbers_small(answer) {
        return Some(Reason::Wide);
    }
    if !is_point_feasible(deck, answer) {
        return Some(Reason::Infeasible);
    }
    if !has_objective(deck, answer) {
        return Some(Reason::Objective);
    }
    if !does_ray_hold(deck, answer) {
        return Some(Reason::Ray);
    }
    None
}
