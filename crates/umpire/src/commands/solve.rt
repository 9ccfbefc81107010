//! `solve DECK [--nodes N] [--pivots N] [--tree FILE]`: the answer to a deck, with the tree that proves it.

ghost use Rattle.std.specs.Prelude.{◌≡◌, false, IfOk, IfErr};
ghost use Rattle.um_model.specs.AnswerValues.{plain_answer};
ghost use Rattle.um_model.specs.Checkable.{IsCheckable};
ghost use Rattle.um_outside.specs.Scenes.{Idle};
ghost use Rattle.um_search.specs.Conditions.{IsBudget, IsSearched};
ghost use Rattle.um_words.specs.Ranges.{HasRanges};
ghost use Rattle.umpire.specs.Solutions.{Answers};
ghost use Rattle.umpire.specs.SolveRuns.{budget_of, HasSolved, SolveRan, SolveStopped};
ghost use Rattle.umpire.specs.Stops.{SaidOrCut};

use crate::ending::Ending;
use crate::reading::{Stop, read_searched};
use crate::saying::{give_up, say};
use std::alloc::Global;
use um_deck::Deck;
use um_model::Answer;
use um_num::{List, Memory};
use um_outside::{Desk, Sink, write_file};
use um_report::report;
use um_search::{Budget, solve as search};
use um_treetext::write;
use um_words::SolveWords;

/// An answer, and the text of its report.
#[derive(Debug, Drop)]
struct Found {
    answer: Answer,
    report: List<u8>,
}

/// Reads a deck, solves it, writes its tree where that is asked for, and then the report.
pub fn solve<D: Desk, O: Sink>(
    alloc: Global,
    asked: &SolveWords,
    desk: &mut D,
    out: &mut O,
) -> Ending
    requires idle { (D.scene desk.old).mode ≡ Idle }
    requires going { (D.scene desk.old).stopped ≡ false }
    requires out_going { (O.told out.old).stopped ≡ false }
    requires ranges { HasRanges asked.now }
    ensures { SolveRan asked.now result (D.scene desk.old) (D.scene desk.new) (O.told out.old) (O.told out.new) }
{
    match find(alloc, desk, asked, budget_of(asked)) {
        Ok(found) => hand_out(out, found),
        Err(stop) => give_up(alloc, out, stop),
    }
}

/// The budget that is asked for.
fn budget_of(asked: &SolveWords) -> Budget
    requires ranges { HasRanges asked.now }
    ensures is { result ≡ budget_of asked.now }
    ensures budget { IsBudget result }
{
    Budget {
        nodes: asked.nodes,
        pivots: asked.pivots,
        tolerance: 0,
    }
}

/// Writes the report of an answer.
fn hand_out<O: Sink>(out: &mut O, found: Found) -> Ending
    requires going { (O.told out.old).stopped ≡ false }
    ensures { SaidOrCut found.report.items (Ending.Answered found.answer) result (O.told out.old) (O.told out.new) }
{
    let Found { answer, report } = found;
    say(out, report.as_slice(), Ending::Answered(answer))
}

/// Reads a deck, solves it, and writes its tree where that is asked for. The texts are made before the file is, so that
/// want of memory leaves no file behind; and a tree that is not asked for has no text, which may be long.
fn find<D: Desk>(
    alloc: Global,
    desk: &mut D,
    asked: &SolveWords,
    budget: Budget,
) -> Result<Found, Stop>
    requires idle { (D.scene desk.old).mode ≡ Idle }
    requires going { (D.scene desk.old).stopped ≡ false }
    requires budget { IsBudget budget }
    ensures ok { IfOk result (λ found. HasSolved asked.now budget found.answer found.report.items (D.scene desk.old) (D.scene desk.new)) }
    ensures err { IfErr result (λ stop. SolveStopped asked.now budget stop (D.scene desk.old) (D.scene desk.new)) }
{
    let deck = read_searched(alloc, desk, asked.deck.as_text())?;
    let answer = answer_to(alloc, &deck, budget)?;
    let report = report(alloc, &deck, &answer)?;
    let Some(file) = &asked.tree else {
        return Ok(Found { answer, report });
    };
    let text = write(alloc, &deck, &answer)?;
    match write_file(desk, file.as_text(), text.as_slice()) {
        Ok(()) => Ok(Found { answer, report }),
        Err(_) => Err(Stop::Fault),
    }
}

/// The answer to a deck, within the budget. The error is want of memory.
fn answer_to(alloc: Global, deck: &Deck, budget: Budget) -> Result<Answer, Memory>
    requires searched { IsSearched deck.now }
    requires budget { IsBudget budget }
    ensures answers { IfOk result (λ answer. Answers deck.now budget (plain_answer answer)) }
    ensures checkable { IfOk result (λ answer. IsCheckable deck.now (plain_answer answer)) }
{
    search(alloc, deck, budget)
}
