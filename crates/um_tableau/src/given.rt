//! What a board keeps of its relaxation.

ghost use Rattle.std.specs.Prelude.{◌≡◌, ◌+◌, ◌<◌, length, map, slice_index_or, All, AllPairs, IfOk};
ghost use Rattle.um_num.specs.Numbers.{IsInRange};
ghost use Rattle.um_lines.specs.Lines.{AreInRange};
ghost use Rattle.um_tableau.specs.Frames.{items_of, cost_in};
ghost use Rattle.um_lp.specs.States.{width, coefficient, no_data};
ghost use Rattle.um_lp.specs.Relaxations.{frame_of, IsRelaxation};

use std::alloc::Global;
use std::marker::Model;
use um_lp::{Relaxation, Term};
use um_num::{List, Memory};

/// The sizes of a board, and the costs and terms of the columns before the slacks.
///
/// Contracts see it as the frame of a board.
#[derive(Debug, Drop)]
pub struct Given {
    rows: u32,
    places: u32,
    costs: List<i128>,
    terms: List<List<Term>>,
}

impl Model for Given {
    ghost use Rattle.std.specs.Prelude.{◌≡◌, ◌+◌, ◌<◌, ◌^◌, length};
    ghost use Rattle.um_lp.specs.States.{Frame};
    ghost use Rattle.um_lp.specs.Relaxations.{columns_of};
    ghost use Rattle.um_tableau.specs.Frames.{IsGiven};

    ghost Value = { Frame };

    ghost view = { λ g. record { rows = g.rows; columns = columns_of g.costs.items g.terms.items; places = g.places } };

    ghost invariant = { λ g. IsGiven g.rows g.places g.costs.items g.terms.items };
}

/// Copies of lists of terms.
fn copy_terms(alloc: Global, entries: &[List<Term>]) -> Result<List<List<Term>>, Memory>
    ensures { IfOk result (λ copies. map items_of copies.items ≡ map items_of entries.now) }
{
    let mut copies = List::new(alloc);
    for terms in entries {
        copies.push(List::from_slice(alloc, terms.as_slice())?)?;
    }
    Ok(copies)
}

/// What terms by rising row have in a row.
fn coefficient_of(terms: &[Term], row: u32) -> i128
    requires rise { AllPairs (λ a b. a.row < b.row) terms.now }
    requires range { All (λ term. IsInRange term.value) terms.now }
    ensures value { result ≡ coefficient terms.now row }
    ensures range { IsInRange result }
{
    for term in terms {
        if term.row == row {
            return term.value;
        }
    }
    0
}

impl Given {
    /// The error is want of memory.
    pub fn new(alloc: Global, relaxation: &Relaxation) -> Result<Given, Memory>
        requires { IsRelaxation relaxation.now }
        ensures { IfOk result (λ given. given ≡ frame_of relaxation.now) }
    {
        let bends = relaxation.bends.len() as u32;
        Ok(Given {
            rows: relaxation.rows + bends,
            places: 256 * bends,
            costs: List::from_slice(alloc, relaxation.costs.as_slice())?,
            terms: copy_terms(alloc, relaxation.entries.as_slice())?,
        })
    }

    /// How many columns stand before the slacks.
    pub fn first_slack(&self) -> u32
        ensures { result ≡ length self.now.columns }
    {
        self.costs.len() as u32
    }

    /// How many columns stand before the places for grid points.
    pub fn first_place(&self) -> u32
        ensures { result ≡ length self.now.columns + self.now.rows }
    {
        self.costs.len() as u32 + self.rows
    }

    /// How many rows there are.
    pub fn rows(&self) -> u32
        ensures { result ≡ self.now.rows }
    {
        self.rows
    }

    /// How many columns there are.
    pub fn width(&self) -> u32
        ensures { result ≡ width self.now }
    {
        self.costs.len() as u32 + self.rows + self.places
    }

    /// What each column costs.
    pub fn costs(&self) -> &[i128]
        ensures costs { result.now ≡ map cost_in self.now.columns }
        ensures range { AreInRange result.now }
    {
        self.costs.as_slice()
    }

    /// What a column has in a row.
    pub fn coefficient(&self, column: usize, row: u32) -> i128
        requires { column < length self.now.columns }
        ensures value { result ≡ coefficient (slice_index_or self.now.columns column no_data).terms row }
        ensures range { IsInRange result }
    {
        coefficient_of(self.terms.as_slice()[column].as_slice(), row)
    }
}
