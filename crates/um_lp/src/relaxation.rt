//! The linear relaxation of a deck, in whole numbers.

use um_num::List;

/// What a column has in a row.
#[derive(Clone, Copy, PartialEq, Eq, Debug)]
pub struct Term {
    pub row: u32,
    pub value: i128,
}

/// A column with arcs: what the weights of its grid points are made of.
///
/// The weight of a point p costs `cost * p + cost_square * p * p`, has in each row the term's value
/// times p plus the square's value times p * p, and has 1 in its convexity row.
#[derive(Debug, Drop)]
pub struct Bend {
    /// The column of the deck.
    pub column: u32,
    pub cost: i128,
    pub cost_square: i128,
    /// By rising row.
    pub terms: List<Term>,
    /// By rising row.
    pub squares: List<Term>,
    /// The grid points, in thousandths, in the order of insertion.
    pub points: List<i64>,
}

/// The relaxation of a deck. Columns are measured in thousandths.
#[derive(Debug, Drop)]
pub struct Relaxation {
    /// How many columns the deck has.
    pub columns: u32,
    /// How many rows the deck has; a convexity row for each bend stands behind them.
    pub rows: u32,
    /// Whether the objective has an arc.
    pub bent_cost: bool,
    /// Whether each row has an arc.
    pub bent_rows: List<bool>,
    /// The low ends of the columns, and then of the slacks; `None` is minus infinity. A column with
    /// arcs has 0.
    pub lows: List<Option<i128>>,
    /// The high ends likewise; `None` is infinity.
    pub highs: List<Option<i128>>,
    /// The cost of each column; 0 of a column with arcs.
    pub costs: List<i128>,
    /// What each column has in the rows, by rising row; nothing in a column with arcs.
    pub entries: List<List<Term>>,
    /// The columns with arcs, by rising column.
    pub bends: List<Bend>,
    /// The key rows, by rising index.
    pub keys: List<u32>,
    /// Empty between calls: the terms of an inserted point are built in it.
    pub room: List<Term>,
}
