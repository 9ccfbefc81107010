//! Statements, told to a maker, and the deck that comes of them.

ghost use Rattle.std.specs.Prelude.{◌<◌, length, IfOk, OnOk};
ghost use Rattle.um_statements.specs.WellSaid.{IsNumber};

use std::alloc::Global;
use um_deck::Deck;
use um_maker::{BoundKind, DeckMaker, Fault, RowKind, SetKind};
use um_num::Decimal;
use um_text::decimal;

/// A statement, with its numbers as words.
#[derive(Clone, Copy)]
pub enum Statement {
    Name(&'static str),
    Maximise,
    Row(RowKind, &'static str),
    /// Of a name, whether it is integer, a number in the row `z`, and another row with the number there.
    Column(&'static str, bool, &'static str, &'static str, &'static str),
    Side(&'static str, &'static str),
    Range(&'static str, &'static str),
    Upper(&'static str, &'static str),
    Free(&'static str),
    Set(SetKind, &'static str),
    Member(&'static str, &'static str),
    /// Of a row, a column and a number.
    Arc(&'static str, &'static str, &'static str),
}

/// Statements of all kinds, each with the fault that it is refused for; the maker goes on behind a refused one.
pub const SCRIPT: &[(Statement, Option<Fault>)] = &[
    (Statement::Name("d"), None),
    (Statement::Maximise, None),
    (Statement::Row(RowKind::N, "z"), None),
    (Statement::Row(RowKind::L, "z"), Some(Fault::TwiceRow)),
    (Statement::Row(RowKind::L, "r"), None),
    (Statement::Column("x", false, "1.5", "r", "2"), None),
    (Statement::Side("r", "3"), None),
    (Statement::Side("r", "4"), Some(Fault::TwiceEntry)),
    (Statement::Side("z", "0.25"), None),
    (Statement::Range("s", "1"), Some(Fault::UnknownRow)),
    (Statement::Range("r", "7"), None),
    (Statement::Upper("x", "4"), None),
    (Statement::Upper("y", "2"), Some(Fault::UnknownColumn)),
    (Statement::Column("y", true, "0", "r", "0.5"), None),
    (Statement::Upper("y", "2"), None),
    (
        Statement::Column("w", false, "0", "z", "1"),
        Some(Fault::TwiceEntry),
    ),
    (Statement::Upper("w", "1"), None),
    (Statement::Set(SetKind::S1, "s"), None),
    (Statement::Member("x", "1"), None),
    (Statement::Member("x", "2"), Some(Fault::TwiceMember)),
    (Statement::Member("w", "0.5"), None),
    (Statement::Column("q", false, "0", "r", "0"), None),
    (Statement::Upper("q", "3"), None),
    (Statement::Arc("r", "q", "1"), Some(Fault::ArcRow)),
    (Statement::Arc("z", "q", "0.75"), None),
    (Statement::Column("v", false, "0", "r", "0"), None),
    (Statement::Free("v"), None),
];

/// The deck of the script.
pub fn deck_of(alloc: Global) -> Result<Deck, Fault> {
    let mut maker = DeckMaker::new(alloc);
    for (statement, _) in SCRIPT {
        let _ = tell(&mut maker, statement);
    }
    maker.finish()
}

/// Tells the maker a statement.
pub fn tell(maker: &mut DeckMaker, statement: &Statement) -> Result<(), Fault> {
    match *statement {
        Statement::Name(name) => maker.name(name.as_bytes()),
        Statement::Maximise => {
            maker.sense(true);
            Ok(())
        }
        Statement::Row(kind, name) => maker.row(kind, name.as_bytes()),
        Statement::Column(name, integer, first, row, second) => {
            begin_column(maker, name, integer)?;
            entry(maker, "z", first)?;
            entry(maker, row, second)
        }
        Statement::Side(row, value) => maker.rhs(row.as_bytes(), &number(value)?),
        Statement::Range(row, value) => maker.range(row.as_bytes(), &number(value)?),
        Statement::Upper(column, value) => {
            maker.bound(BoundKind::Up, column.as_bytes(), Some(&number(value)?))
        }
        Statement::Free(column) => maker.bound(BoundKind::Fr, column.as_bytes(), None),
        Statement::Set(kind, name) => maker.set(kind, name.as_bytes(), None),
        Statement::Member(column, weight) => member(maker, column, weight),
        Statement::Arc(row, column, value) => {
            maker.arc(row.as_bytes(), column.as_bytes(), &number(value)?)
        }
    }
}

fn begin_column(maker: &mut DeckMaker, name: &str, integer: bool) -> Result<(), Fault>
    ensures { OnOk result (0 < length maker.new.columns) }
{
    maker.column(name.as_bytes(), integer)
}

fn entry(maker: &mut DeckMaker, row: &str, value: &str) -> Result<(), Fault>
    requires { 0 < length maker.old.columns }
    ensures { 0 < length maker.new.columns }
{
    let value = number(value)?;
    maker.entry(row.as_bytes(), &value)
}

/// A member with a weight.
fn member(maker: &mut DeckMaker, column: &str, weight: &str) -> Result<(), Fault> {
    if maker.wants_weight() != Some(true) {
        return Err(Fault::BadWords);
    }
    let weight = number(weight)?;
    maker.member(column.as_bytes(), Some(&weight))
}

fn number(word: &str) -> Result<Decimal, Fault>
    ensures { IfOk result IsNumber }
{
    match decimal(word.as_bytes()) {
        Ok(value) => Ok(value),
        Err(_) => Err(Fault::BadNumber),
    }
}
