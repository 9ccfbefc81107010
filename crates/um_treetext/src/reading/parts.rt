//! The lines of the point and the ray.

ghost use Rattle.std.specs.Prelude.{option_map};
ghost use Rattle.um_model.specs.AnswerValues.{plain_ray};
ghost use Rattle.um_model.specs.Values.{plain_point};
ghost use Rattle.um_treetext.specs.Calls.{TakesAs, TellsAs};
ghost use Rattle.um_treetext.specs.FrontLines.{numbers, point_line, ray_line};

use crate::fault::TreeWord;
use crate::reading::numbers::{den, whole_number};
use crate::reading::words::LineWords;
use std::alloc::Global;
use um_model::Point;
use um_num::List;

/// A point with a part for each of this many columns, or `none`.
pub fn read_point(
    alloc: Global,
    mut words: LineWords<'_>,
    columns: usize,
) -> Result<Option<Point>, TreeWord>
    ensures { TellsAs (option_map plain_point) (point_line columns words.entry) result }
{
    words.fixed(b"POINT")?;
    if words.is_next(b"none") {
        words.skip();
        words.end()?;
        return Ok(None);
    }
    let den = den(words.word()?)?;
    let parts = read_numbers(alloc, &mut words, columns)?;
    words.end()?;
    Ok(Some(Point { den, parts }))
}

/// A ray with a part for each of this many columns, or `none`. There is none without columns.
pub fn read_ray(
    alloc: Global,
    mut words: LineWords<'_>,
    columns: usize,
) -> Result<Option<List<i128>>, TreeWord>
    ensures { TellsAs (option_map plain_ray) (ray_line columns words.entry) result }
{
    words.fixed(b"RAY")?;
    if words.is_next(b"none") {
        words.skip();
        words.end()?;
        return Ok(None);
    }
    if columns == 0 {
        return Err(TreeWord::BadWord);
    }
    let parts = read_numbers(alloc, &mut words, columns)?;
    words.end()?;
    Ok(Some(parts))
}

/// This many numbers.
fn read_numbers(
    alloc: Global,
    words: &mut LineWords<'_>,
    count: usize,
) -> Result<List<i128>, TreeWord>
    ensures { TakesAs plain_ray (numbers count words.old) result words.new }
{
    let mut numbers = List::new(alloc);
    for _i in 0..count {
        numbers.push(whole_number(words.word()?)?)?;
    }
    Ok(numbers)
}
