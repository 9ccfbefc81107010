//! Fractions and lists. The expected numbers are those of Python's integers and fractions.

use std::test::Fail;
use um_num::{FileName, Frac, List, Name, Op, Wide};

/// The greatest number in range.
const TOP: i128 = i128::MAX;

#[derive(Clone, Copy, Debug)]
enum Operation {
    Sum,
    Difference,
    Product,
    Quotient,
}

/// An operation, a numerator and a denominator of each side, and those of the answer or the step out of range.
type Case = (
    Operation,
    (i128, i128),
    (i128, i128),
    Result<(i128, i128), (Op, i128, i128)>,
);

const CASES: [Case; 20] = [
    (Operation::Sum, (1, 6), (1, 10), Ok((4, 15))),
    // Products of the denominators would be out of range here.
    (Operation::Sum, (1, TOP), (1, TOP), Ok((2, TOP))),
    (
        Operation::Sum,
        (5, 1 << 100),
        (3, 1 << 101),
        Ok((13, 1 << 101)),
    ),
    (Operation::Sum, (TOP, 2), (1, 2), Err((Op::Add, TOP, 1))),
    (Operation::Sum, (1, 2), (TOP, 3), Err((Op::Mul, TOP, 2))),
    (
        Operation::Sum,
        (-TOP, 2),
        (1, TOP),
        Err((Op::Mul, -TOP, TOP)),
    ),
    (
        Operation::Sum,
        (1, TOP),
        (1, TOP - 1),
        Err((Op::Add, TOP - 1, TOP)),
    ),
    (
        Operation::Sum,
        (1, 1 << 64),
        (1, 12157665459056928801),
        Err((Op::Mul, 1 << 64, 12157665459056928801)),
    ),
    (Operation::Difference, (1, 6), (1, 10), Ok((1, 15))),
    (Operation::Difference, (1, TOP), (1, TOP), Ok((0, 1))),
    (Operation::Difference, (TOP, 3), (2, 3), Ok((TOP - 2, 3))),
    (
        Operation::Difference,
        (TOP, 1),
        (-1, 1),
        Err((Op::Sub, TOP, -1)),
    ),
    (Operation::Product, (TOP, 2), (2, TOP), Ok((1, 1))),
    (
        Operation::Product,
        (TOP - 1, 1),
        (1, TOP),
        Ok((TOP - 1, TOP)),
    ),
    (Operation::Product, (TOP, 3), (2, 3), Err((Op::Mul, TOP, 2))),
    (
        Operation::Product,
        (1, TOP),
        (1, TOP - 1),
        Err((Op::Mul, TOP, TOP - 1)),
    ),
    (Operation::Quotient, (1, 6), (1, 10), Ok((5, 3))),
    (
        Operation::Quotient,
        (-1, TOP),
        (-TOP, TOP - 1),
        Err((Op::Mul, TOP, TOP)),
    ),
    (Operation::Quotient, (TOP, 1), (-1, 1), Ok((-TOP, 1))),
    (
        Operation::Quotient,
        (TOP, 2),
        (2, TOP),
        Err((Op::Mul, TOP, TOP)),
    ),
];

fn parts(answer: Result<Frac, Wide>) -> Result<(i128, i128), (Op, i128, i128)> {
    match answer {
        Ok(fraction) => Ok((fraction.num(), fraction.den())),
        Err(wide) => Err((wide.op, wide.left, wide.right)),
    }
}

#[test]
fn fractions(rt: HostRuntime) {
    for (operation, left, right, want) in CASES {
        let (a, b) = left;
        let (c, d) = right;
        assert!(rt; a != i128::MIN && b >= 1 && c != i128::MIN && d >= 1);
        let (left, right) = (Frac::new(a, b), Frac::new(c, d));
        assert!(rt; !right.is_zero());
        let answer = match operation {
            Operation::Sum => left.add(&right),
            Operation::Difference => left.sub(&right),
            Operation::Product => left.mul(&right),
            Operation::Quotient => left.div(&right),
        };
        assert!(rt;
            parts(answer) == want,
            "{operation:?} of {a}/{b} and {c}/{d}"
        );
    }
}

#[test]
fn lists_and_names(rt: HostRuntime) -> Result<(), Fail> {
    let mut list = List::from_slice(rt.alloc(), &[3u8, 1, 4])?;
    list.push(1)?;
    list.reserve(2)?;
    assert_eq!(rt; list.spare(), 2);
    list.push_reserved(5);
    *list.at_mut(1) = 9;
    assert!(rt; list.as_slice() == [3, 9, 4, 1, 5].as_slice());
    assert_eq!(rt; list.len(), 5);
    list.clear();
    assert!(rt; list.is_empty());
    assert_eq!(rt; list.spare(), 6);
    assert!(rt; Name::from_bytes(rt.alloc(), b"ROW 1")?.as_bytes() == b"ROW 1".as_slice());
    assert!(rt; FileName::from_text(rt.alloc(), "deck.mps")?.as_text() == "deck.mps");
    Ok(())
}
