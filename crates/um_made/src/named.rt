//! Parts of a deck with their names, which are moved.

ghost use Rattle.std.specs.Prelude.{◌≡◌, IfOk, map};
ghost use Rattle.um_model.specs.Values.{plain_column, plain_set};
ghost use Rattle.um_made.specs.ColumnWords.{named_column};
ghost use Rattle.um_made.specs.NamedWords.{named_rows, named_columns, named_sets};

use crate::columns::ColumnLeft;
use crate::rows::SidedRow;
use crate::sides::is_n;
use crate::{ColumnPart, RowPart, SetPart};
use std::alloc::Global;
use um_model::{Column, Member, OrderedSet, Row};
use um_num::{List, Memory, Name};

/// Each row that is not N takes the next of what is left.
pub fn named_rows(
    alloc: Global,
    rows: Vec<(Name, RowPart)>,
    left: &[SidedRow],
) -> Result<List<Row>, Memory>
    ensures { IfOk result (λ list. list.items ≡ named_rows rows.items left.now) }
{
    let mut list = List::new(alloc);
    let mut number = 0;
    for (name, part) in rows {
        if is_n(part.kind) {
            continue;
        }
        if number >= left.len() {
            continue;
        }
        let row = left[number];
        list.push(Row {
            name,
            scale: row.scale,
            low: row.low,
            high: row.high,
        })?;
        number += 1;
    }
    Ok(list)
}

/// Each column takes the next of what is left.
pub fn named_columns(
    alloc: Global,
    columns: Vec<(Name, ColumnPart)>,
    left: Vec<ColumnLeft>,
) -> Result<List<Column>, Memory>
    ensures { IfOk result (λ list. map plain_column list.items ≡ named_columns columns.items left.items) }
{
    let mut list = List::new(alloc);
    let mut left = left.into_iter();
    for (name, _part) in columns {
        let Some(column) = left.next() else {
            continue;
        };
        list.push(named_column(name, column))?;
    }
    Ok(list)
}

fn named_column(name: Name, column: ColumnLeft) -> Column
    ensures { plain_column result ≡ named_column name column }
{
    Column {
        name,
        kind: column.kind,
        low: column.low,
        high: column.high,
        cost: column.cost,
        entries: column.entries,
    }
}

/// Each set takes the next of what is left.
pub fn named_sets(
    alloc: Global,
    sets: Vec<(Name, SetPart)>,
    left: Vec<List<Member>>,
) -> Result<List<OrderedSet>, Memory>
    ensures { IfOk result (λ list. map plain_set list.items ≡ named_sets sets.items left.items) }
{
    let mut list = List::new(alloc);
    let mut left = left.into_iter();
    for (name, part) in sets {
        let Some(members) = left.next() else {
            continue;
        };
        list.push(OrderedSet {
            name,
            kind: part.kind,
            members,
        })?;
    }
    Ok(list)
}
