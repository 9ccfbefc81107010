//! The tolerance and the fields of an answer.

ghost use Rattle.std.specs.Prelude.{◌≡◌, ◌≢◌, IsTrue, ◌↔◌};
ghost use Rattle.um_model.specs.Accepted.{ToleranceHolds, WhyGoes, FieldsGo, FieldsOf, OptimalFields, InfeasibleFields, UnboundedFields, StoppedFields};
ghost use Rattle.um_model.specs.AnswerValues.{plain_answer};

use um_deck::Deck;
use um_model::limits::MOST_TOLERANCE;
use um_model::{Answer, AnswerKind, Why};

/// Whether the deck allows the tolerance.
pub fn is_tolerance(deck: &Deck, answer: &Answer) -> bool
    ensures { IsTrue result ↔ ToleranceHolds deck.now answer.now.tolerance }
{
    if deck.arcs().is_empty() {
        answer.tolerance == 0
    } else {
        deck.least_tolerance() <= answer.tolerance && answer.tolerance <= MOST_TOLERANCE
    }
}

/// Whether the fields are those of the answer's kind.
pub fn do_fields_go(answer: &Answer) -> bool
    ensures { IsTrue result ↔ FieldsGo (plain_answer answer.now) }
{
    does_why_go(answer.kind, answer.why) && are_fields_there(answer)
}

/// Whether answers of this kind have a tree.
pub fn has_tree(kind: AnswerKind) -> bool
    ensures { IsTrue result ↔ (kind ≢ AnswerKind.Unbounded) }
{
    match kind {
        AnswerKind::Unbounded => false,
        _ => true,
    }
}

/// Whether a cause is there exactly for a search that stopped, and goes with the kind.
fn does_why_go(kind: AnswerKind, why: Option<Why>) -> bool
    ensures { IsTrue result ↔ WhyGoes kind why }
{
    match (kind, why) {
        (AnswerKind::Limit, Some(why)) => is_limit(why.kind()),
        (AnswerKind::Overflow, Some(why)) => is_overflow(why.kind()),
        (AnswerKind::Limit | AnswerKind::Overflow, None) => false,
        (AnswerKind::Optimal | AnswerKind::Infeasible | AnswerKind::Unbounded, why) => {
            why.is_none()
        }
    }
}

fn is_limit(kind: AnswerKind) -> bool
    ensures { IsTrue result ↔ (kind ≡ AnswerKind.Limit) }
{
    match kind {
        AnswerKind::Limit => true,
        _ => false,
    }
}

fn is_overflow(kind: AnswerKind) -> bool
    ensures { IsTrue result ↔ (kind ≡ AnswerKind.Overflow) }
{
    match kind {
        AnswerKind::Overflow => true,
        _ => false,
    }
}

fn are_fields_there(answer: &Answer) -> bool
    ensures { IsTrue result ↔ FieldsOf answer.now.kind (plain_answer answer.now) }
{
    match answer.kind {
        AnswerKind::Optimal => is_optimal(answer),
        AnswerKind::Infeasible => is_infeasible(answer),
        AnswerKind::Unbounded => is_unbounded(answer),
        AnswerKind::Limit | AnswerKind::Overflow => is_stopped(answer),
    }
}

/// A point, its objective and a bound.
fn is_optimal(answer: &Answer) -> bool
    ensures { IsTrue result ↔ OptimalFields (plain_answer answer.now) }
{
    answer.point.is_some()
        && answer.objective.is_some()
        && answer.bound.is_some()
        && answer.ray.is_none()
}

/// None of the fields.
fn is_infeasible(answer: &Answer) -> bool
    ensures { IsTrue result ↔ InfeasibleFields (plain_answer answer.now) }
{
    answer.point.is_none()
        && answer.objective.is_none()
        && answer.bound.is_none()
        && answer.ray.is_none()
}

/// A point and a ray, and no tree.
fn is_unbounded(answer: &Answer) -> bool
    ensures { IsTrue result ↔ UnboundedFields (plain_answer answer.now) }
{
    answer.point.is_some()
        && answer.objective.is_none()
        && answer.bound.is_none()
        && answer.ray.is_some()
        && answer.tree.nodes().is_empty()
}

/// An objective exactly where there is a point.
fn is_stopped(answer: &Answer) -> bool
    ensures { IsTrue result ↔ StoppedFields (plain_answer answer.now) }
{
    match (&answer.objective, &answer.point) {
        (Some(_), Some(_)) | (None, None) => answer.ray.is_none(),
        _ => false,
    }
}
