//! The command `solve` where a call of the desk or of the sink fails.

ghost use Rattle.std.specs.Prelude.{◌≡◌, false, IfOk};
ghost use Rattle.um_outside.specs.MemoryDesks.{scene_of};
ghost use Rattle.um_outside.specs.MemorySinks.{told_of};
ghost use Rattle.um_outside.specs.Scenes.{Idle};

use std::alloc::Global;
use std::test::Fail;
use um_num::{List, Memory};
use um_outside::{MemoryDesk, MemorySink};
use umpire::{Status, run};

/// min -x - 2y; x + y <= 4; x in [0,3], y in [0,2]. The best point is (2,2), of objective -6.
const DECK: &[u8] =
    b"NAME ROW1\nROWS\n N COST\n L R1\nCOLUMNS\n x COST -1\n x R1 1\n y COST -2\n y R1 1\nRHS\n RHS R1 4\nBOUNDS\n LO BND x 0\n UP BND x 3\n LO BND y 0\n UP BND y 2\nENDATA\n";

/// The tree of its best answer has so many bytes.
const TREE_BYTES: usize = 142;

const REPORT: &[u8] =
    b"Optimal\nobjective -6\nbound -6\ntolerance 0.000\nnodes 1\npivots 1\ncolumn x 2\ncolumn y 2\n";

/// No call has this number.
const NEVER: u64 = 1_000_000;

/// What a call told.
#[derive(Drop)]
struct Told {
    status: Status,
    output: List<u8>,
    /// How many bytes the tree's file has; 0 also where there is none.
    tree_bytes: usize,
}

/// A desk with the deck and room for the tree, of pieces of 64 bytes, where this call fails.
fn desk_of(alloc: Global, fails: u64) -> Result<MemoryDesk, Memory>
    ensures idle { IfOk result (λ desk. (scene_of desk).mode ≡ Idle) }
    ensures going { IfOk result (λ desk. (scene_of desk).stopped ≡ false) }
{
    let mut desk = MemoryDesk::new(alloc, 64);
    desk.put_file("deck", DECK)?;
    desk.room("found", 4096)?;
    desk.fail_at(fails)?;
    Ok(desk)
}

/// A sink of pieces of 16 bytes, where this write fails.
fn sink_of(alloc: Global, fails: u64) -> Result<MemorySink, Memory>
    ensures { IfOk result (λ sink. (told_of sink).stopped ≡ false) }
{
    let mut sink = MemorySink::new(alloc, 16);
    sink.room(4096)?;
    sink.fail_at(fails)?;
    Ok(sink)
}

/// Solves the deck, where these calls of the desk and of the sink fail.
fn solve_failing(alloc: Global, desk_call: u64, sink_call: u64) -> Result<Told, Fail> {
    let mut words = Vec::new(alloc);
    for word in ["solve", "deck", "--tree", "found"] {
        words.push(String::from_str(alloc, word)?)?;
    }
    let mut desk = desk_of(alloc, desk_call)?;
    let mut sink = sink_of(alloc, sink_call)?;
    let outcome = run(alloc, words.as_slice(), &mut desk, &mut sink);
    Ok(Told {
        status: outcome.status,
        output: List::from_slice(alloc, sink.bytes())?,
        tree_bytes: desk.file("found").unwrap_or(b"").len(),
    })
}

#[test]
fn desk_fails(rt: HostRuntime) -> Result<(), Fail> {
    // The deck of three pieces is opened, read four times and closed; the tree is made, written in
    // three pieces, and closed.
    for call in 1..12u64 {
        let failed = solve_failing(rt.alloc(), call, NEVER)?;
        assert_eq!(rt; failed.status, Status::Fault, "call {call}");
        assert!(rt; failed.output.is_empty(), "call {call}");
    }
    let whole = solve_failing(rt.alloc(), 12, NEVER)?;
    assert_eq!(rt; whole.status, Status::Optimal);
    assert_eq!(rt; whole.output.as_slice(), REPORT);
    Ok(())
}

#[test]
fn output_fails(rt: HostRuntime) -> Result<(), Fail> {
    // The tree is written whole before the report is begun.
    let cut = solve_failing(rt.alloc(), NEVER, 2)?;
    assert_eq!(rt; cut.status, Status::Fault);
    assert_eq!(rt; cut.output.as_slice(), b"Optimal\nobjectiv".as_slice());
    assert_eq!(rt; cut.tree_bytes, TREE_BYTES);
    Ok(())
}
