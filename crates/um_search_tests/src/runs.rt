//! Searches on a board that is handed in: they give what a search on a board of its own gives.

ghost use Rattle.std.specs.Prelude.{IfOk};
ghost use Rattle.um_search.specs.Conditions.{IsSearched, IsBudget};

use std::alloc::Global;
use std::process::Abort;
use std::test::Fail;
use um_deck::Deck;
use um_model::{Multipliers, Point, What};
use um_mps::read;
use um_num::Memory;
use um_relax::build;
use um_search::{Answer, AnswerKind, Budget, is_searched, solve, solve_on};
use um_tableau::Tableau;

/// Both rows cut off the corner (10,10): three steps, which end at (3, 3/2).
const THREE: &[u8] =
    b"NAME ROW2\nROWS\n N c\n L a\n L b\nCOLUMNS\n x c -5\n x a 6\n x b 1\n y c -4\n y a 4\n y b 2\nRHS\n RHS a 24\n RHS b 6\nBOUNDS\n LO BND x 0\n UP BND x 10\n LO BND y 0\n UP BND y 10\nENDATA\n";

/// A row of side -1: both columns enter and go to 0, and then none may.
const NO_POINT: &[u8] =
    b"NAME NONE\nROWS\n N c\n L a\nCOLUMNS\n x c -1\n x a 1\n y c -2\n y a 1\nRHS\n RHS a -1\nBOUNDS\n LO BND x 0\n UP BND x 3\n LO BND y 0\n UP BND y 2\nENDATA\n";

/// A deck, how many pivots may be made, the kind of the answer, how many were made, and the point.
const RUNS: [(&[u8], u64, AnswerKind, u64, &[i128]); 3] = [
    (THREE, 2, AnswerKind::Limit, 2, &[]),
    (THREE, 3, AnswerKind::Optimal, 3, &[2, 6, 3]),
    (NO_POINT, 2, AnswerKind::Infeasible, 2, &[]),
];

/// The deck of a text, where it is one that is searched.
fn deck_of(alloc: Global, text: &[u8]) -> Result<Deck, Fail>
    ensures { IfOk result IsSearched }
{
    let deck = read(alloc, text)?;
    if is_searched(&deck) {
        Ok(deck)
    } else {
        Err(Memory.into())
    }
}

/// The answer that is found on a new board for the deck.
fn solve_on_new(alloc: Global, deck: &Deck, budget: Budget) -> Result<Answer, Memory>
    requires searched { IsSearched deck.now }
    requires budget { IsBudget budget }
{
    let relaxation = build(alloc, deck)?;
    let mut board = Tableau::new(alloc, &relaxation)?;
    solve_on(alloc, deck, &mut board, budget)
}

/// The point has this denominator and these parts; where they are missing there is no point.
fn is_at(rt: &impl Abort, found: &Option<Point>, expected: &[i128]) {
    match (found, expected) {
        (Some(found), [den, parts @ ..]) => {
            assert_eq!(rt; found.den, *den);
            assert_eq!(rt; found.parts.as_slice(), parts);
        }
        (found, expected) => assert!(rt; found.is_none() && expected.is_empty()),
    }
}

/// The multipliers of a leaf.
fn multipliers_of(what: &What) -> Option<&Multipliers> {
    match what {
        What::Bounded(y) | What::Empty(y) | What::OpenLeaf(y) => Some(y),
        What::Split(_) | What::Void(_) => None,
    }
}

/// Both answers have the same one leaf.
fn have_same_leaf(rt: &impl Abort, first: &Answer, second: &Answer) {
    match (first.tree.nodes(), second.tree.nodes()) {
        ([one], [other]) => {
            assert_eq!(rt; one.solved, other.solved);
            match (multipliers_of(&one.what), multipliers_of(&other.what)) {
                (Some(y), Some(z)) => {
                    assert_eq!(rt; y.y0, z.y0);
                    assert_eq!(rt; y.rows.as_slice(), z.rows.as_slice());
                }
                _ => assert!(rt; false),
            }
        }
        _ => assert!(rt; false),
    }
}

/// The answer to a deck, and that on a new board.
fn both(alloc: Global, deck: &Deck, budget: Budget) -> Result<(Answer, Answer), Memory>
    requires searched { IsSearched deck.now }
    requires budget { IsBudget budget }
{
    let answer = solve(alloc, deck, budget)?;
    let other = solve_on_new(alloc, deck, budget)?;
    Ok((answer, other))
}

#[test]
fn runs(rt: HostRuntime) -> Result<(), Fail> {
    for (text, most, kind, pivots, point) in RUNS {
        let deck = deck_of(rt.alloc(), text)?;
        let budget = Budget {
            nodes: 1,
            pivots: most.max(1).min(10_000_000),
            tolerance: 0,
        };
        // A board that is handed in gives the same.
        let (answer, other) = both(rt.alloc(), &deck, budget)?;
        assert_eq!(rt; answer.kind, kind);
        for node in answer.tree.nodes() {
            assert_eq!(rt; node.solved.map(|solved| solved.pivots), Some(pivots));
        }
        is_at(&rt, &answer.point, point);
        assert_eq!(rt; other.kind, kind);
        assert_eq!(rt; other.why, answer.why);
        assert_eq!(rt; other.objective, answer.objective);
        assert_eq!(rt; other.bound, answer.bound);
        is_at(&rt, &other.point, point);
        have_same_leaf(&rt, &answer, &other);
    }
    Ok(())
}
