//! What the pairs of a column's line say, by the rows so far.

ghost use Rattle.std.specs.Prelude.{◌≡◌, ◌∷◌, ◌++◌, [], OnOk};
ghost use Rattle.cgl_text.specs.Seen.{words};
ghost use Rattle.cgl_decode.specs.Sections.{pairs_of};
ghost use Rattle.cgl_mps.specs.Tables.{IsResolved, resolved, resolved_all, resolved_at};

use crate::numbers::number;
use crate::record::Record;
use crate::sections::entry_fields;
use cgl_decode::Section;
use cgl_num::{Dec, Memory};
use cgl_text::NameTable;

/// What a pair of a row and a value says: the place of the row, and the number, each where there is one.
#[derive(Clone, Copy)]
pub(crate) struct Resolved {
    pub(crate) row: Option<usize>,
    pub(crate) value: Option<Dec>,
}

/// The pair at place k from 0, and one that says nothing where there is none.
pub(crate) fn resolved_at(pairs: &[Resolved], k: usize) -> Resolved
    ensures { result ≡ resolved_at k pairs.now }
{
    match pairs.get(k) {
        Some(found) => *found,
        None => Resolved {
            row: None,
            value: None,
        },
    }
}

/// Puts the pair of this row and this value behind the others.
fn push_pair(
    rows: &NameTable,
    row: &[u8],
    value: &[u8],
    pairs: &mut Vec<Resolved>,
) -> Result<(), Memory>
    ensures { OnOk result (pairs.new.items ≡ pairs.old.items ++ resolved rows.now (row.now, value.now) ∷ []) }
{
    let row = rows.find(row);
    let value = number(value);
    let Ok(()) = pairs.push(Resolved { row, value }) else {
        return Err(Memory);
    };
    Ok(())
}

/// Puts those pairs that the fields are behind the others.
fn push_pairs(rows: &NameTable, fields: &[&[u8]], pairs: &mut Vec<Resolved>) -> Result<(), Memory>
    ensures { OnOk result (pairs.new.items ≡ pairs.old.items ++ resolved_all rows.now (pairs_of (words fields.now))) }
{
    match fields {
        [row, value, others @ ..] => {
            push_pair(rows, row, value, pairs)?;
            push_pairs(rows, others, pairs)
        }
        _ => Ok(()),
    }
}

/// Makes the pairs those of a line of COLUMNS, and none of another.
pub(crate) fn resolve(rows: &NameTable, r: &Record, pairs: &mut Vec<Resolved>) -> Result<(), Memory>
    ensures { OnOk result (IsResolved rows.now r.now pairs.new.items) }
{
    pairs.clear();
    if Section::Columns.is(r.section()) {
        push_pairs(rows, entry_fields(r), pairs)?;
    }
    Ok(())
}
