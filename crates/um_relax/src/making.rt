//! The relaxation of a deck.

ghost use Rattle.std.specs.Prelude.{◌≡◌, [], ◌++◌, ℤ, map, false, IfOk};
ghost use Rattle.um_num.specs.Listed.{Listed};
ghost use Rattle.um_lp.specs.Relaxations.{IsRelaxation, frame_of};
ghost use Rattle.um_model.specs.declared.deck.Column.{Column};
ghost use Rattle.um_model.specs.declared.deck.Entry.{Entry};
ghost use Rattle.um_model.specs.declared.deck.Row.{Row};
ghost use Rattle.um_lp.specs.declared.relaxation.Term.{Term};
ghost use Rattle.um_duality.specs.Relaxed.{deck_frame, side_end, term_of};
ghost use Rattle.um_relax.specs.Relaxations.{IsRelaxationOf};

use crate::key_rows::key_rows;
use std::alloc::Global;
use um_deck::{Column, Deck, Entry, Row};
use um_lp::{Relaxation, Term};
use um_num::{List, Memory};

/// The relaxation of a deck without arcs. The error is want of memory.
pub fn build(alloc: Global, deck: &Deck) -> Result<Relaxation, Memory>
    requires { deck.now.arcs ≡ [] }
    ensures relaxed { IfOk result (IsRelaxationOf deck.now) }
    ensures sizes { IfOk result IsRelaxation }
    ensures frame { IfOk result (λ relaxation. frame_of relaxation ≡ deck_frame deck.now) }
{
    deck.known();
    let columns = deck.columns();
    let rows = deck.rows();
    Ok(Relaxation {
        columns: columns.len() as u32,
        rows: rows.len() as u32,
        bent_cost: false,
        bent_rows: straight_rows(alloc, rows)?,
        lows: lows(alloc, columns, rows)?,
        highs: highs(alloc, columns, rows)?,
        costs: costs(alloc, columns)?,
        entries: entries(alloc, columns)?,
        bends: List::new(alloc),
        keys: key_rows(alloc, columns, rows)?,
        room: List::new(alloc),
    })
}

/// No row has an arc.
fn straight_rows(alloc: Global, rows: &[Row]) -> Result<List<bool>, Memory>
    ensures { IfOk result (λ bent. bent.items ≡ map (λ (row : Row). false) rows.now) }
{
    let mut bent = List::new(alloc);
    for _row in rows {
        bent.push(false)?;
    }
    Ok(bent)
}

/// The low ends of the columns, and then those of the slacks.
fn lows(alloc: Global, columns: &[Column], rows: &[Row]) -> Result<List<Option<i128>>, Memory>
    ensures { IfOk result (λ lows. lows.items ≡ map (λ (c : Column). c.low) columns.now ++ map (λ (row : Row). side_end row.low) rows.now) }
{
    let mut lows = List::new(alloc);
    for column in columns {
        lows.push(wide(column.low))?;
    }
    for row in rows {
        lows.push(slack_end(row.low))?;
    }
    Ok(lows)
}

/// The high ends of the columns, and then those of the slacks.
fn highs(alloc: Global, columns: &[Column], rows: &[Row]) -> Result<List<Option<i128>>, Memory>
    ensures { IfOk result (λ highs. highs.items ≡ map (λ (c : Column). c.high) columns.now ++ map (λ (row : Row). side_end row.high) rows.now) }
{
    let mut highs = List::new(alloc);
    for column in columns {
        highs.push(wide(column.high))?;
    }
    for row in rows {
        highs.push(slack_end(row.high))?;
    }
    Ok(highs)
}

/// An end with more room.
pub(crate) fn wide(end: Option<i64>) -> Option<i128>
    ensures { result ≡ end }
{
    match end {
        Some(end) => Some(i128::from(end)),
        None => None,
    }
}

/// A side of a row as an end of its slack, in thousandths.
fn slack_end(side: Option<i64>) -> Option<i128>
    ensures { result ≡ side_end side }
{
    match side {
        Some(side) => Some(1000 * i128::from(side)),
        None => None,
    }
}

fn costs(alloc: Global, columns: &[Column]) -> Result<List<i128>, Memory>
    ensures { IfOk result (λ costs. costs.items ≡ map (λ (c : Column). c.cost) columns.now) }
{
    let mut costs = List::new(alloc);
    for column in columns {
        costs.push(i128::from(column.cost))?;
    }
    Ok(costs)
}

/// What each column has in the rows.
fn entries(alloc: Global, columns: &[Column]) -> Result<List<List<Term>>, Memory>
    ensures { IfOk result (λ entries. map (λ (t : Listed Term). t.items) entries.items ≡ map (λ (c : Column). map term_of c.entries.items) columns.now) }
{
    let mut entries = List::new(alloc);
    for column in columns {
        let terms = terms(alloc, column.entries.as_slice())?;
        entries.push(terms)?;
    }
    Ok(entries)
}

fn terms(alloc: Global, entries: &[Entry]) -> Result<List<Term>, Memory>
    ensures { IfOk result (λ terms. terms.items ≡ map term_of entries.now) }
{
    let mut terms = List::new(alloc);
    for entry in entries {
        terms.push(Term {
            row: entry.row,
            value: i128::from(entry.value),
        })?;
    }
    Ok(terms)
}
