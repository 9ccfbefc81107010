//! The report of a search that stopped at a grid, whose text another program of the same rules writes.

ghost use Rattle.std.specs.Prelude.{◌≡◌, length, IfOk};
ghost use Rattle.um_model.specs.AnswerValues.{plain_answer};
ghost use Rattle.um_model.specs.Values.{DeckValue, plain_point};
ghost use Rattle.um_report.specs.Reports.{IsReportable, IsReportablePoint};

use std::alloc::Global;
use std::test::Fail;
use um_deck::Deck;
use um_model::{
    Answer, AnswerKind, Multipliers, Node, Point, Reason, Solved, Tree, TreeFull, What, Why,
};
use um_num::{Frac, List, Memory};
use um_report::report;

/// min -x - 2y; x + y <= 4; x in [0,3], y in [0,2].
const DECK: &[u8] =
    b"NAME ROW1\nROWS\n N COST\n L R1\nCOLUMNS\n x COST -1\n x R1 1\n y COST -2\n y R1 1\nRHS\n RHS R1 4\nBOUNDS\n LO BND x 0\n UP BND x 3\n LO BND y 0\n UP BND y 2\nENDATA\n";

/// A tree of these nodes, each an open leaf.
fn tree_of(alloc: Global, nodes: &[Option<Solved>]) -> Result<Tree, Fail> {
    let mut tree = Tree::new(alloc);
    for solved in nodes {
        let y = Multipliers {
            y0: 1,
            rows: List::new(alloc),
        };
        match tree.push(Node {
            solved: *solved,
            what: What::OpenLeaf(y),
        }) {
            Ok(()) => (),
            Err(TreeFull::Memory | TreeFull::Full) => return Err(Memory.into()),
        }
    }
    Ok(tree)
}

/// The point (3/2, 2).
fn point_of(alloc: Global) -> Result<Point, Memory>
    ensures { (d : DeckValue) → length d.columns ≡ 2 → IfOk result (λ point. IsReportablePoint d (plain_point point)) }
{
    let parts = List::from_slice(alloc, &[3, 4])?;
    Ok(Point { den: 2, parts })
}

/// An answer that stopped at a grid.
fn stopped(alloc: Global, nodes: &[Option<Solved>]) -> Result<Answer, Fail>
    ensures { (d : DeckValue) → length d.columns ≡ 2 → IfOk result (λ answer. IsReportable d (plain_answer answer)) }
{
    Ok(Answer {
        kind: AnswerKind::Limit,
        why: Some(Why::Grid { number: 7 }),
        tolerance: 12_345,
        objective: Some(Frac::new(-11, 2)),
        bound: Some(Frac::new(-7, 1)),
        point: Some(point_of(alloc)?),
        ray: None,
        tree: tree_of(alloc, nodes)?,
    })
}

/// The deck of the text above.
fn deck_of(alloc: Global) -> Result<Deck, Fail>
    ensures { IfOk result (λ deck. length deck.columns ≡ 2) }
{
    let deck = um_mps::read(alloc, DECK)?;
    if deck.columns().len() == 2 {
        Ok(deck)
    } else {
        Err(Memory.into())
    }
}

#[test]
fn report_of_a_point(rt: HostRuntime) -> Result<(), Fail> {
    let solved = Some(Solved {
        number: 1,
        pivots: 3,
    });
    let deck = deck_of(rt.alloc())?;
    let answer = stopped(rt.alloc(), &[solved, None, solved])?;
    let text = report(rt.alloc(), &deck, &answer)?;
    assert_eq!(&rt;
        text.as_slice(),
        b"Limit grid\nobjective -11/2\nbound -7\ntolerance 12.345\nnodes 2\npivots 6\ncolumn x 3/2\ncolumn y 2\n".as_slice()
    );
    Ok(())
}
