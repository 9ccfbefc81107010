//! The leaves of a tree.

ghost use Rattle.std.specs.Prelude.{◌≡◌, ◌<◌, pos, ◌<ℤ◌, length, IsTrue, ◌↔◌, IfOk, IfErr};
ghost use Rattle.um_multipliers.specs.NormalForm.{HasRisingRows};
ghost use Rattle.um_multipliers.specs.PlainMultipliers.{plain_multipliers};
ghost use Rattle.um_multipliers.specs.Sizes.{AreBelow};
ghost use Rattle.um_model.specs.Accepted.{IsStopped, BoundedHolds, bounds_at};
ghost use Rattle.um_model.specs.AnswerValues.{AnswerValue, Bounded, Empty, Void, OpenLeaf, plain_answer, plain_what};
ghost use Rattle.um_model.specs.Boxes.{IsVoid, IsCrossed};
ghost use Rattle.um_model.specs.Checkable.{IsCheckableWhat};
ghost use Rattle.um_model.specs.LeafValue.{Empties};
ghost use Rattle.um_model.specs.declared.limits.TheConstants.{MULTIPLIER_SIZE};
ghost use Rattle.um_check.specs.Bounds.{least_of};
ghost use Rattle.um_check.specs.Judging.{IsTolerance, LeafValueIs, IsUnusable, OnLeaf, GivesBound};

use crate::bound::LeastBound;
use um_bound::{bound_of, closes, value};
use um_box::NodeBox;
use um_model::{Answer, AnswerKind, Leaf, Multipliers, Reason, What};

/// What a leaf says of the bound, or the first reason against it. A split is passed over.
pub fn on_leaf(node: &NodeBox<'_>, answer: &Answer, leaf: &What) -> Result<LeastBound, Reason>
    requires tolerance { IsTolerance answer.now.tolerance }
    requires checkable { IsCheckableWhat node.now.deck (plain_what leaf.now) }
    ensures leaf { OnLeaf node.now.deck (plain_answer answer.now) node.now.limits (plain_what leaf.now) result }
    ensures bound { GivesBound node.now.deck node.now.limits (plain_what leaf.now) result }
{
    match leaf {
        What::Split(_) => Ok(LeastBound::Nothing),
        What::Void(column) => on_void(node, *column),
        What::Bounded(y) => on_bounded(node, answer, y),
        What::Empty(y) => on_empty(node, y),
        What::OpenLeaf(y) => on_open(node, answer, y),
    }
}

/// A leaf whose column is to have crossed ends.
fn on_void(node: &NodeBox<'_>, column: u32) -> Result<LeastBound, Reason>
    requires { column < length node.now.deck.columns }
    ensures leaf { (a : AnswerValue) → OnLeaf node.now.deck a node.now.limits (Void column) result }
    ensures bound { GivesBound node.now.deck node.now.limits (Void column) result }
{
    if !is_crossed(node, column) {
        return Err(Reason::NotVoid);
    }
    Ok(LeastBound::Nothing)
}

/// Whether the column's low end is above its high end.
fn is_crossed(node: &NodeBox<'_>, column: u32) -> bool
    requires { column < length node.now.deck.columns }
    ensures { IsTrue result ↔ IsCrossed node.now.deck node.now.limits column }
{
    match node.ends(column) {
        (Some(low), Some(high)) => high < low,
        _ => false,
    }
}

/// A leaf that is to show that nothing in its box beats the answer.
fn on_bounded(node: &NodeBox<'_>, answer: &Answer, y: &Multipliers) -> Result<LeastBound, Reason>
    requires tolerance { IsTolerance answer.now.tolerance }
    requires rows { HasRisingRows (length node.now.deck.rows) y.now.rows.items }
    ensures leaf { OnLeaf node.now.deck (plain_answer answer.now) node.now.limits (Bounded (plain_multipliers y.now)) result }
    ensures bound { GivesBound node.now.deck node.now.limits (Bounded (plain_multipliers y.now)) result }
{
    match usable_value(node, y) {
        Ok(value) => on_value(node, answer, y, value),
        Err(reason) => Err(reason),
    }
}

/// The same leaf where its value is known.
fn on_value(
    node: &NodeBox<'_>,
    answer: &Answer,
    y: &Multipliers,
    value: i128,
) -> Result<LeastBound, Reason>
    requires tolerance { IsTolerance answer.now.tolerance }
    requires value { LeafValueIs node.now.deck node.now.limits (plain_multipliers y.now) value }
    ensures leaf { OnLeaf node.now.deck (plain_answer answer.now) node.now.limits (Bounded (plain_multipliers y.now)) result }
    ensures bound { GivesBound node.now.deck node.now.limits (Bounded (plain_multipliers y.now)) result }
{
    if !is_closed(node, answer, y, value) {
        return Err(Reason::Bound);
    }
    Ok(LeastBound::Least(bound_of(node.deck(), y.y0, value)))
}

/// Whether the multipliers close the box at the answer's objective.
fn is_closed(node: &NodeBox<'_>, answer: &Answer, y: &Multipliers, value: i128) -> bool
    requires tolerance { IsTolerance answer.now.tolerance }
    requires value { LeafValueIs node.now.deck node.now.limits (plain_multipliers y.now) value }
    ensures { IsTrue result ↔ BoundedHolds node.now.deck (plain_answer answer.now) node.now.limits (plain_multipliers y.now) }
{
    match (&answer.point, &answer.objective) {
        (Some(_), Some(objective)) => {
            is_objective_in(y) && closes(node.deck(), y.y0, value, objective, answer.tolerance)
        }
        _ => false,
    }
}

/// A leaf that is to show that its box has no feasible point. It says nothing of the bound.
fn on_empty(node: &NodeBox<'_>, y: &Multipliers) -> Result<LeastBound, Reason>
    requires rows { HasRisingRows (length node.now.deck.rows) y.now.rows.items }
    ensures leaf { (a : AnswerValue) → OnLeaf node.now.deck a node.now.limits (Empty (plain_multipliers y.now)) result }
    ensures bound { GivesBound node.now.deck node.now.limits (Empty (plain_multipliers y.now)) result }
{
    match usable_value(node, y) {
        Ok(value) if empties(node, y, value) => Ok(LeastBound::Nothing),
        Ok(_) => Err(Reason::NotEmpty),
        Err(reason) => Err(reason),
    }
}

/// Whether the multipliers show that the box has no feasible point.
fn empties(node: &NodeBox<'_>, y: &Multipliers, value: i128) -> bool
    requires { LeafValueIs node.now.deck node.now.limits (plain_multipliers y.now) value }
    ensures { IsTrue result ↔ Empties node.now.deck node.now.limits (plain_multipliers y.now) }
{
    y.y0 == 0 && value > 0
}

/// A leaf that the search did not come to.
fn on_open(node: &NodeBox<'_>, answer: &Answer, y: &Multipliers) -> Result<LeastBound, Reason>
    requires rows { HasRisingRows (length node.now.deck.rows) y.now.rows.items }
    ensures leaf { OnLeaf node.now.deck (plain_answer answer.now) node.now.limits (OpenLeaf (plain_multipliers y.now)) result }
    ensures bound { GivesBound node.now.deck node.now.limits (OpenLeaf (plain_multipliers y.now)) result }
{
    if is_void(node) {
        return Err(Reason::NotVoid);
    }
    if !is_stopped(answer.kind) {
        return Err(Reason::OpenLeaf);
    }
    if !y.is_small() {
        return Err(Reason::Wide);
    }
    if !is_objective_in(y) {
        return Err(Reason::Sign);
    }
    Ok(open_bound(node, y))
}

/// Whether the search stopped early, so that leaves may be open.
fn is_stopped(kind: AnswerKind) -> bool
    ensures { IsTrue result ↔ IsStopped kind }
{
    match kind {
        AnswerKind::Limit | AnswerKind::Overflow => true,
        AnswerKind::Optimal | AnswerKind::Infeasible | AnswerKind::Unbounded => false,
    }
}

/// What an open leaf says of the bound.
fn open_bound(node: &NodeBox<'_>, y: &Multipliers) -> LeastBound
    requires rows { HasRisingRows (length node.now.deck.rows) y.now.rows.items }
    requires full { ¬ IsVoid node.now.deck node.now.limits }
    requires small { AreBelow MULTIPLIER_SIZE (plain_multipliers y.now) }
    requires positive { pos 0 <ℤ y.now.y0 }
    ensures { result ≡ least_of (bounds_at node.now.deck node.now.limits (OpenLeaf (plain_multipliers y.now))) }
{
    match value(node.deck(), node, y) {
        Leaf::Value(value) => LeastBound::Least(bound_of(node.deck(), y.y0, value)),
        Leaf::EndlessRow(_) => LeastBound::Endless,
        Leaf::EndlessColumn(_) => LeastBound::Endless,
    }
}

/// The value of the leaf, where its multipliers may be used, and else the first reason against them.
fn usable_value(node: &NodeBox<'_>, y: &Multipliers) -> Result<i128, Reason>
    requires rows { HasRisingRows (length node.now.deck.rows) y.now.rows.items }
    ensures ok { IfOk result (LeafValueIs node.now.deck node.now.limits (plain_multipliers y.now)) }
    ensures err { IfErr result (IsUnusable node.now.deck node.now.limits (plain_multipliers y.now)) }
{
    if is_void(node) {
        return Err(Reason::NotVoid);
    }
    if !y.is_small() {
        return Err(Reason::Wide);
    }
    if y.y0 < 0 {
        return Err(Reason::Sign);
    }
    match value(node.deck(), node, y) {
        Leaf::Value(value) => Ok(value),
        Leaf::EndlessRow(_) => Err(Reason::Sign),
        Leaf::EndlessColumn(_) => Err(Reason::Sign),
    }
}

/// Whether some column has crossed ends.
fn is_void(node: &NodeBox<'_>) -> bool
    ensures { IsTrue result ↔ IsVoid node.now.deck node.now.limits }
{
    match node.void() {
        Some(_) => true,
        None => false,
    }
}

/// Whether the objective has a multiplier above 0.
fn is_objective_in(y: &Multipliers) -> bool
    ensures { IsTrue result ↔ (pos 0 <ℤ y.now.y0) }
{
    y.y0 >= 1
}
