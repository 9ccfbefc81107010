//! The lines of what an answer says, and of how many nodes it has.

ghost use Rattle.std.specs.Prelude.{◌≡◌, ◌≤◌, IfOk};
ghost use Rattle.um_treetext.specs.Calls.{ReadsAs, plain_values};
ghost use Rattle.um_treetext.specs.FrontLines.{nodes_line, nodes_said};
ghost use Rattle.um_treetext.specs.Reading.{values_read};
ghost use Rattle.um_treetext.specs.Words.{fraction_or_none_said, labelled, sole};

use crate::fault::{TreeFault, TreeWord};
use crate::reading::lines::{TextLines, at_line};
use crate::reading::numbers::{fraction_or_none, from_zero};
use crate::reading::parts::{read_point, read_ray};
use crate::reading::words::LineWords;
use std::alloc::Global;
use um_deck::Deck;
use um_model::Point;
use um_model::limits::MOST_NODES;
use um_num::{Frac, List};

/// What the lines from the objective up to the count of nodes say.
#[derive(Debug, Drop)]
pub struct Values {
    pub objective: Option<Frac>,
    pub bound: Option<Frac>,
    pub point: Option<Point>,
    pub ray: Option<List<i128>>,
    /// How many nodes follow.
    pub nodes: u32,
}

pub fn read_values(
    alloc: Global,
    lines: &mut TextLines<'_>,
    deck: &Deck,
) -> Result<Values, TreeFault>
    ensures values { ReadsAs plain_values (values_read deck.now lines.old) result lines.new }
    ensures within { IfOk result (λ values. values.nodes ≤ MOST_NODES) }
{
    let columns = deck.columns().len();
    let objective = at_line(6, read_fraction(lines.next(5)?, b"OBJECTIVE"))?;
    let bound = at_line(7, read_fraction(lines.next(6)?, b"BOUND"))?;
    let point = at_line(8, read_point(alloc, lines.next(7)?, columns))?;
    let ray = at_line(9, read_ray(alloc, lines.next(8)?, columns))?;
    let nodes = at_line(10, read_count(lines.next(9)?))?;
    Ok(Values {
        objective,
        bound,
        point,
        ray,
        nodes,
    })
}

/// A fraction or `none`, behind its label.
fn read_fraction(mut words: LineWords<'_>, label: &[u8]) -> Result<Option<Frac>, TreeWord>
    ensures { result ≡ labelled label.now (sole fraction_or_none_said) words.entry }
{
    words.fixed(label)?;
    let fraction = fraction_or_none(words.word()?)?;
    words.end()?;
    Ok(fraction)
}

/// How many nodes there are.
fn read_count(mut words: LineWords<'_>) -> Result<u32, TreeWord>
    ensures value { result ≡ nodes_line words.entry }
    ensures within { IfOk result (λ count. count ≤ MOST_NODES) }
{
    words.fixed(b"NODES")?;
    let count = node_count(words.word()?)?;
    words.end()?;
    Ok(count)
}

/// At most as many as a tree holds.
fn node_count(word: &[u8]) -> Result<u32, TreeWord>
    ensures value { result ≡ nodes_said word.now }
    ensures within { IfOk result (λ count. count ≤ MOST_NODES) }
{
    let count = from_zero(word)?;
    if count > MOST_NODES as i128 {
        return Err(TreeWord::TooMany);
    }
    Ok(count as u32)
}
