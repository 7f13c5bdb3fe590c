//! What one record says.

ghost use Rattle.std.specs.Prelude.{◌≡◌, ◌≤◌, length, option_map};
ghost use Rattle.cgl_text.specs.Text.{is_one_of};
ghost use Rattle.cgl_decode.specs.Sections.{sense_names, sense_in, row_kind, row_in, is_marker, pairs_of, rest, entry_pairs, set_pairs, needs_value, bound_with, bound_in, set_in, same_set};
ghost use Rattle.cgl_decode.specs.Faults.{names_row};
ghost use Rattle.cgl_decode.specs.Models.{name_in};
ghost use Rattle.cgl_text.specs.Seen.{word, words};
ghost use Rattle.cgl_mps.specs.Seen.{word_at, bound_kind};
ghost use Rattle.cgl_mps.specs.State.{says_maximise};

use crate::bound::Bound;
use crate::record::{Record, field};
use cgl_decode::{BoundKind, Section};
use cgl_model::RowKind;
use cgl_text::same_bytes;

// NAME

/// The name that a NAME line gives the model.
pub(crate) fn name_in<'a>(r: &Record<'_, 'a>) -> Option<&'a [u8]>
    ensures { option_map word result ≡ name_in r.now }
{
    if Section::Name.is(r.section()) {
        r.fields().get(1).copied()
    } else {
        None
    }
}

// OBJSENSE

/// Whether the word is one for a sense.
pub(crate) fn is_sense(text: &[u8]) -> bool
    ensures { result ≡ is_one_of sense_names text.now }
{
    same_bytes(text, b"MAX")
        || same_bytes(text, b"MAXIMIZE")
        || same_bytes(text, b"MIN")
        || same_bytes(text, b"MINIMIZE")
}

/// Whether the word says to maximise.
pub(crate) fn says_maximise(text: &[u8]) -> bool
    ensures { result ≡ says_maximise text.now }
{
    same_bytes(text, b"MAX") || same_bytes(text, b"MAXIMIZE")
}

/// The word that stands in the place of the sense.
pub(crate) fn sense_in<'a>(r: &Record<'_, 'a>) -> Option<&'a [u8]>
    ensures { option_map word result ≡ sense_in r.now }
{
    if Section::Sense.is(r.section()) {
        r.fields().get(usize::from(r.is_header())).copied()
    } else {
        None
    }
}

// ROWS

fn row_kind(text: &[u8]) -> Option<RowKind>
    ensures { result ≡ row_kind text.now }
{
    if same_bytes(text, b"N") {
        Some(RowKind::N)
    } else if same_bytes(text, b"L") {
        Some(RowKind::L)
    } else if same_bytes(text, b"G") {
        Some(RowKind::G)
    } else if same_bytes(text, b"E") {
        Some(RowKind::E)
    } else {
        None
    }
}

/// A row's kind and name, where the fields are these two.
pub(crate) fn row_in<'a>(fields: &[&'a [u8]]) -> Option<(RowKind, &'a [u8])>
    ensures { option_map (λ r. (r.0, r.1.now)) result ≡ row_in (words fields.now) }
{
    match fields {
        [kind, name] => match row_kind(kind) {
            Some(kind) => Some((kind, *name)),
            None => None,
        },
        _ => None,
    }
}

// COLUMNS

/// Whether the record is a marker line of COLUMNS.
pub(crate) fn is_marker(r: &Record) -> bool
    ensures { result ≡ is_marker r.now }
{
    r.fields().len() == 3 && same_bytes(field(r, 1), b"'MARKER'")
}

/// The fields behind the first.
fn rest<'b, 'a>(fields: &'b [&'a [u8]]) -> &'b [&'a [u8]]
    ensures words { words result.now ≡ rest (words fields.now) }
    ensures within { length result.now ≤ length fields.now }
{
    match fields {
        [] => fields,
        [_, others @ ..] => others,
    }
}

/// The fields of a column's line that are rows and values in turn.
pub(crate) fn entry_fields<'f, 'a>(r: &Record<'f, 'a>) -> &'f [&'a [u8]]
    ensures pairs { pairs_of (words result.now) ≡ entry_pairs r.now }
    ensures within { length result.now ≤ length r.now.fields }
{
    rest(r.fields())
}

/// The field at place k from 0, and an empty one where there is none.
pub(crate) fn word_at<'a>(fields: &[&'a [u8]], k: usize) -> &'a [u8]
    ensures { result.now ≡ word_at k fields.now }
{
    match fields.get(k) {
        Some(found) => *found,
        None => &[],
    }
}

/// Whether a pair of these fields names the row.
pub(crate) fn names_row(fields: &[&[u8]], row: &[u8]) -> bool
    ensures { result ≡ names_row (pairs_of (words fields.now)) row.now }
{
    match fields {
        [first, _, others @ ..] => same_bytes(row, first) || names_row(others, row),
        _ => false,
    }
}

// RHS and RANGES

/// The fields of a line of RHS or RANGES that are rows and values in turn.
pub(crate) fn set_fields<'f, 'a>(r: &Record<'f, 'a>) -> &'f [&'a [u8]]
    ensures pairs { pairs_of (words result.now) ≡ set_pairs r.now }
    ensures within { length result.now ≤ length r.now.fields }
{
    let fields = r.fields();
    if fields.len() % 2 == 1 {
        rest(fields)
    } else {
        fields
    }
}

// BOUNDS

fn bound_kind(text: &[u8]) -> Option<BoundKind>
    ensures { result ≡ bound_kind text.now }
{
    if same_bytes(text, b"LO") {
        Some(BoundKind::Lo)
    } else if same_bytes(text, b"LI") {
        Some(BoundKind::Li)
    } else if same_bytes(text, b"UP") {
        Some(BoundKind::Up)
    } else if same_bytes(text, b"UI") {
        Some(BoundKind::Ui)
    } else if same_bytes(text, b"FX") {
        Some(BoundKind::Fx)
    } else if same_bytes(text, b"FR") {
        Some(BoundKind::Fr)
    } else if same_bytes(text, b"MI") {
        Some(BoundKind::Mi)
    } else if same_bytes(text, b"PL") {
        Some(BoundKind::Pl)
    } else if same_bytes(text, b"BV") {
        Some(BoundKind::Bv)
    } else {
        None
    }
}

/// Whether a bound of the kind says nothing without a value.
pub(crate) fn needs_value(kind: BoundKind) -> bool
    ensures { result ≡ needs_value kind }
{
    match kind {
        BoundKind::Fr | BoundKind::Mi | BoundKind::Pl | BoundKind::Bv => false,
        _ => true,
    }
}

/// The bound that the fields behind a kind say, where they are of the form.
fn bound_with<'a>(kind: BoundKind, fields: &[&'a [u8]]) -> Option<Bound<'a>>
    ensures { result ≡ bound_with kind (needs_value kind) (words fields.now) }
{
    match fields {
        [column, value] if needs_value(kind) => Some(Bound {
            kind,
            set: None,
            column,
            value: Some(value),
        }),
        [column] if !needs_value(kind) => Some(Bound {
            kind,
            set: None,
            column,
            value: None,
        }),
        [set, column] => Some(Bound {
            kind,
            set: Some(set),
            column,
            value: None,
        }),
        [set, column, value] => Some(Bound {
            kind,
            set: Some(set),
            column,
            value: Some(value),
        }),
        _ => None,
    }
}

/// The bound that the fields say, where they are of the form.
pub(crate) fn bound_in<'a>(fields: &[&'a [u8]]) -> Option<Bound<'a>>
    ensures { result ≡ bound_in (words fields.now) }
{
    match bound_kind(word_at(fields, 0)) {
        Some(kind) => bound_with(kind, rest(fields)),
        None => None,
    }
}

// sets

/// The set that a line of the section names.
pub(crate) fn set_in<'a>(section: Section, r: &Record<'_, 'a>) -> Option<&'a [u8]>
    ensures { option_map word result ≡ set_in section r.now }
{
    if section.is(Section::Bounds) {
        return match bound_in(r.fields()) {
            Some(bound) => bound.set,
            None => None,
        };
    }
    if r.fields().len() % 2 == 1 {
        r.fields().first().copied()
    } else {
        None
    }
}

pub(crate) fn same_set(a: Option<&[u8]>, b: Option<&[u8]>) -> bool
    ensures { result ≡ same_set (option_map word a.entry) (option_map word b.entry) }
{
    match (a, b) {
        (None, None) => true,
        (Some(a), Some(b)) => same_bytes(a, b),
        _ => false,
    }
}
