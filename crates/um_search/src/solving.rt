//! The search of a deck on a board.

ghost use Rattle.std.specs.Prelude.{◌≡◌, IfOk};
ghost use Rattle.um_lp.specs.Boards.{IsStart};
ghost use Rattle.um_lp.specs.Relaxations.{frame_of};
ghost use Rattle.um_duality.specs.Relaxed.{deck_frame};
ghost use Rattle.um_model.specs.Accepted.{IsAccepted};
ghost use Rattle.um_model.specs.AnswerValues.{plain_answer};
ghost use Rattle.um_model.specs.Checkable.{IsCheckable};
ghost use Rattle.um_model.specs.Right.{IsRight};
ghost use Rattle.um_relax.specs.Relaxations.{IsRelaxationOf};
ghost use Rattle.um_search.specs.Conditions.{IsSearched, IsBudget, Task};
ghost use Rattle.um_search.specs.Told.{TellsAnswer};

use crate::budget::Budget;
use crate::ends::{finish, stop, unbounded};
use std::alloc::Global;
use um_box::NodeBox;
use um_deck::Deck;
use um_loop::{Ending, Search};
use um_lp::Board;
use um_model::Answer;
use um_num::Memory;
use um_relax::{Relaxation, build};
use um_tableau::Tableau;

/// The answer to a deck without arcs. The error is want of memory.
///
/// The answer is accepted by a checker of its tree, and so it is right, and it tells the search that it
/// came from. It stops early only at the budget of nodes or of pivots, or where a number is too large.
pub fn solve(alloc: Global, deck: &Deck, budget: Budget) -> Result<Answer, Memory>
    requires searched { IsSearched deck.now }
    requires budget { IsBudget budget }
    ensures accepted { IfOk result (λ answer. IsAccepted deck.now (plain_answer answer)) }
    ensures right { IfOk result (λ answer. IsRight deck.now (plain_answer answer)) }
    ensures checkable { IfOk result (λ answer. IsCheckable deck.now (plain_answer answer)) }
    ensures tells { IfOk result (λ answer. TellsAnswer deck.now budget (plain_answer answer)) }
{
    let mut relaxation = build(alloc, deck)?;
    let mut board = Tableau::new(alloc, &relaxation)?;
    search_on(alloc, deck, &mut relaxation, &mut board, budget)
}

/// The answer to a deck, found on this board, which stands for the deck's relaxation and starts with
/// every slack basic. Afterwards the board may be in any state. The error is want of memory.
pub fn solve_on<B: Board>(
    alloc: Global,
    deck: &Deck,
    board: &mut B,
    budget: Budget,
) -> Result<Answer, Memory>
    requires searched { IsSearched deck.now }
    requires budget { IsBudget budget }
    requires starts { IsStart (deck_frame deck.now) (B.state board.old) }
    ensures accepted { IfOk result (λ answer. IsAccepted deck.now (plain_answer answer)) }
    ensures right { IfOk result (λ answer. IsRight deck.now (plain_answer answer)) }
    ensures checkable { IfOk result (λ answer. IsCheckable deck.now (plain_answer answer)) }
    ensures tells { IfOk result (λ answer. TellsAnswer deck.now budget (plain_answer answer)) }
{
    let mut relaxation = build(alloc, deck)?;
    search_on(alloc, deck, &mut relaxation, board, budget)
}

/// The answer that is found with this relaxation of the deck, on a board for it.
fn search_on<B: Board>(
    alloc: Global,
    deck: &Deck,
    relaxation: &mut Relaxation,
    board: &mut B,
    budget: Budget,
) -> Result<Answer, Memory>
    ghost task: { Task }
    requires same_deck { deck.now ≡ task.deck }
    requires same_budget { budget ≡ task.budget }
    requires searched { IsSearched deck.now }
    requires budget { IsBudget budget }
    requires relaxed { IsRelaxationOf deck.now relaxation.old }
    requires frame { frame_of relaxation.old ≡ deck_frame deck.now }
    requires starts { IsStart (deck_frame deck.now) (B.state board.old) }
    ensures accepted { IfOk result (λ answer. IsAccepted task.deck (plain_answer answer)) }
    ensures right { IfOk result (λ answer. IsRight task.deck (plain_answer answer)) }
    ensures checkable { IfOk result (λ answer. IsCheckable task.deck (plain_answer answer)) }
    ensures tells { IfOk result (λ answer. TellsAnswer task.deck task.budget (plain_answer answer)) }
{
    deck.known();
    let root = NodeBox::root(alloc, deck)?;
    let mut search = Search::new(alloc, deck, &root)?;
    let mut left = budget.pivots;
    let ending = search.run(alloc, deck, relaxation, board, budget.nodes, &mut left)?;
    match ending {
        None => finish(alloc, search),
        Some(Ending::Halted(halt)) => stop(alloc, deck, search, halt),
        Some(Ending::Found(point)) => Ok(unbounded(alloc, search, point)),
    }
}
