//! The limits: how large a deck, an answer, a search and their numbers may be.
//!
//! Each limit stands here with its unit, and definitions, contracts and code above cite it by its
//! name. A limit called `MOST_..` may be reached, and a size called `.._SIZE` may not. That each is
//! the number that stands here is a law, [`limits_law`], so that no limit changes unseen.
//!
//! Limits of crates that know nothing of decks stay there: below which size a number counts as
//! narrow (`um_num`), how many digits a numeral has (`um_text`), how many places for grid points a
//! board has for each column with an arc (`um_lp`), and the most nodes and pivots that a command
//! line may ask for (`um_words`).

ghost use Rattle.um_model.specs.Limits.{LimitsAre};

use um_multipliers::Multipliers;

// ---- files

/// The most bytes of the text of a deck.
pub const MOST_DECK_BYTES: usize = 16_777_216;

/// The most bytes of the text of a tree.
pub const MOST_TREE_BYTES: usize = 2_147_483_648;

// ---- decks

/// The most lines of rows that a deck's text has, with those of N rows.
pub const MOST_ROW_LINES: usize = 1024;

/// The most rows of a deck, which has no N rows.
pub const MOST_ROWS: usize = 512;

/// The most columns of a deck.
pub const MOST_COLUMNS: usize = 4096;

/// The most ordered sets of a deck.
pub const MOST_SETS: usize = 256;

/// The most columns of a deck that have an arc.
pub const MOST_ARC_COLUMNS: usize = 64;

/// The most places behind the decimal point that the numbers of a row or of the objective have.
pub const MOST_SCALE: u32 = 6;

/// The greatest size of a side of a row and of the objective's constant, scaled.
pub const MOST_SIDE: u64 = 1 << 53;

/// The greatest size of the range of a row, scaled: both its sides lie within `MOST_SIDE`.
pub const MOST_RANGE: u64 = 1 << 54;

/// The greatest size of a coefficient and of a cost, scaled.
pub const MOST_COEFFICIENT: u64 = 1 << 31;

/// The greatest size of the value of an arc, scaled.
pub const MOST_ARC: u64 = 1 << 24;

/// The greatest size of an end of a column and of a threshold, in thousandths.
pub const MOST_END: u64 = 10_000_000_000;

/// The greatest size of an end of a column that has an arc, in thousandths.
pub const MOST_ARC_END: u64 = 8_000_000;

/// The greatest size of the weight of a member of a set, in millionths.
pub const MOST_WEIGHT: u64 = (1 << 31) * 1_000_000;

// ---- answers

/// The greatest tolerance of an answer, in thousandths.
pub const MOST_TOLERANCE: i64 = 1_000_000_000;

/// The most nodes of a tree: a root, and two more for each number that a search may give.
pub const MOST_NODES: usize = 200_001;

/// The denominator of a point and its parts are below this in size.
pub const POINT_SIZE: u128 = 1 << 36;

/// The numbers of a ray are below this in size.
pub const RAY_SIZE: u128 = 1 << 62;

/// The multipliers of a leaf are below this in size. The number stands at the type of multipliers,
/// which is defined below this crate.
pub const MULTIPLIER_SIZE: u128 = Multipliers::SIZE;

// ---- searches

/// The most nodes that a search may solve: each solved node has a number.
pub const MOST_NUMBERS: u32 = 100_000;

/// The most pivots that a search may make.
pub const MOST_PIVOTS: u64 = 10_000_000;

/// The limits are these numbers.
pub fn limits_law()
    ensures { LimitsAre }
{}
