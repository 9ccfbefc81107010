//! The lines of a point's and of a ray's columns.

ghost use Rattle.std.specs.Prelude.{◌≡◌, ◌∷◌, ◌++◌, [], pos, ◌≤ℤ◌, length, map, All, IfSome, OnOk, option_map, codes};
ghost use Rattle.um_num.specs.Numbers.{IsInRange};
ghost use Rattle.um_num.specs.Views.{rational};
ghost use Rattle.um_model.specs.AnswerValues.{plain_ray};
ghost use Rattle.um_model.specs.Values.{plain_column, plain_point};
ghost use Rattle.um_text.specs.NumberWords.{fraction_word};
ghost use Rattle.um_text.specs.Texts.{line_text, lines_text};
ghost use Rattle.um_report.specs.Reports.{column_lines, direction_line, direction_lines, point_lines, ray_lines, IsReportablePoint};

use um_deck::Deck;
use um_model::{Column, Point};
use um_num::{Frac, List, Memory};
use um_text::Text;

/// The lines of a point, where there is one.
pub(crate) fn put_point(text: &mut Text, deck: &Deck, point: &Option<Point>) -> Result<(), Memory>
    requires { IfSome (option_map plain_point point.now) (IsReportablePoint deck.now) }
    ensures { OnOk result (text.new ≡ text.old ++ lines_text (point_lines deck.now.columns (option_map plain_point point.now))) }
{
    match point {
        Some(point) => put_columns(text, deck.columns(), point),
        None => Ok(()),
    }
}

/// A line for each column: its part over the denominator.
fn put_columns(text: &mut Text, columns: &[Column], point: &Point) -> Result<(), Memory>
    requires den { pos 1 ≤ℤ point.now.den }
    requires den_in { IsInRange point.now.den }
    requires parts { length point.now.parts.items ≡ length columns.now }
    requires parts_in { All IsInRange point.now.parts.items }
    ensures { OnOk result (text.new ≡ text.old ++ lines_text (column_lines point.now.den (map plain_column columns.now) point.now.parts.items)) }
{
    let parts = point.parts.as_slice();
    for (i, column) in columns.iter().enumerate() {
        let value = value_of(point, &parts[i]);
        put_value(text, column.name.as_bytes(), &value)?;
    }
    Ok(())
}

/// A part over the point's denominator.
fn value_of(point: &Point, part: &i128) -> Frac
    requires den { pos 1 ≤ℤ point.now.den }
    requires den_in { IsInRange point.now.den }
    requires part_in { IsInRange part.now }
    ensures { result ≡ rational part.now point.now.den }
{
    Frac::new(*part, point.den)
}

/// The line of a column and its value.
fn put_value(text: &mut Text, name: &[u8], value: &Frac) -> Result<(), Memory>
    ensures { OnOk result (text.new ≡ text.old ++ line_text (codes "column" ∷ name.now ∷ fraction_word value.now ∷ [])) }
{
    text.put(b"column")?;
    text.word(name)?;
    text.put(b" ")?;
    text.fraction(value)?;
    text.end_line()
}

/// The lines of a ray, where there is one.
pub(crate) fn put_ray(text: &mut Text, deck: &Deck, ray: &Option<List<i128>>) -> Result<(), Memory>
    requires { IfSome (option_map plain_ray ray.now) (λ parts. length parts ≡ length deck.now.columns) }
    ensures { OnOk result (text.new ≡ text.old ++ lines_text (ray_lines deck.now.columns (option_map plain_ray ray.now))) }
{
    match ray {
        Some(parts) => put_direction(text, deck.columns(), parts.as_slice()),
        None => Ok(()),
    }
}

/// A line for each column whose part is not 0.
fn put_direction(text: &mut Text, columns: &[Column], parts: &[i128]) -> Result<(), Memory>
    requires { length parts.now ≡ length columns.now }
    ensures { OnOk result (text.new ≡ text.old ++ lines_text (direction_lines (map plain_column columns.now) parts.now)) }
{
    for (i, column) in columns.iter().enumerate() {
        put_part(text, column, &parts[i])?;
    }
    Ok(())
}

/// The line of a column whose part is not 0; no line where it is.
fn put_part(text: &mut Text, column: &Column, part: &i128) -> Result<(), Memory>
    ensures { OnOk result (text.new ≡ text.old ++ lines_text (direction_line (plain_column column.now) part.now)) }
{
    if *part == 0 {
        return Ok(());
    }
    text.put(b"ray")?;
    text.word(column.name.as_bytes())?;
    text.whole_word(*part)?;
    text.end_line()
}
