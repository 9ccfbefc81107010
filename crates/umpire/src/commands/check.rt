//! `check DECK TREE`: whether a tree proves its answer to a deck.

ghost use Rattle.std.specs.Prelude.{◌≡◌, false, IfOk, IfErr};
ghost use Rattle.um_model.specs.AnswerValues.{plain_answer};
ghost use Rattle.um_model.specs.Checkable.{IsCheckable};
ghost use Rattle.um_outside.specs.Scenes.{Idle};
ghost use Rattle.umpire.specs.CheckRuns.{CheckRan, CheckStopped, HasJudged};
ghost use Rattle.umpire.specs.Findings.{IsFinding};

use crate::ending::Ending;
use crate::reading::{Stop, read_deck, read_tree};
use crate::saying::{give_up, tell};
use std::alloc::Global;
use um_check::Checker;
use um_deck::Deck;
use um_model::{Answer, Verdict};
use um_outside::{Desk, Sink};

/// Reads the files of a deck and of a tree, checks the tree, and writes the verdict.
pub fn check<D: Desk, O: Sink>(
    alloc: Global,
    deck_name: &str,
    tree_name: &str,
    desk: &mut D,
    out: &mut O,
) -> Ending
    requires idle { (D.scene desk.old).mode ≡ Idle }
    requires going { (D.scene desk.old).stopped ≡ false }
    requires out_going { (O.told out.old).stopped ≡ false }
    ensures { CheckRan (record { deck = deck_name.now; tree = tree_name.now }) result (D.scene desk.old) (D.scene desk.new) (O.told out.old) (O.told out.new) }
{
    match judge(alloc, desk, deck_name, tree_name) {
        Ok(verdict) => tell(alloc, out, verdict),
        Err(stop) => give_up(alloc, out, stop),
    }
}

/// Reads a deck and then a tree, and checks the tree.
fn judge<D: Desk>(
    alloc: Global,
    desk: &mut D,
    deck_name: &str,
    tree_name: &str,
) -> Result<Verdict, Stop>
    requires idle { (D.scene desk.old).mode ≡ Idle }
    requires going { (D.scene desk.old).stopped ≡ false }
    ensures ok { IfOk result (λ verdict. HasJudged (record { deck = deck_name.now; tree = tree_name.now }) verdict (D.scene desk.old) (D.scene desk.new)) }
    ensures err { IfErr result (λ stop. CheckStopped (record { deck = deck_name.now; tree = tree_name.now }) stop (D.scene desk.old) (D.scene desk.new)) }
{
    let deck = read_deck(alloc, desk, deck_name)?;
    match read_tree(alloc, desk, &deck, tree_name) {
        Ok(answer) => verdict_on(alloc, &deck, &answer),
        Err(stop) => Err(stop),
    }
}

/// The verdict on an answer to a deck. The error is want of memory.
fn verdict_on(alloc: Global, deck: &Deck, answer: &Answer) -> Result<Verdict, Stop>
    requires checkable { IsCheckable deck.now (plain_answer answer.now) }
    ensures ok { IfOk result (IsFinding deck.now (plain_answer answer.now)) }
    ensures err { IfErr result (λ stop. stop ≡ Stop.Memory) }
{
    deck.known();
    let mut checker = Checker::new(alloc, deck)?;
    Ok(checker.verdict(answer))
}
