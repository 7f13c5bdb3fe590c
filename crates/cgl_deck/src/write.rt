ghost use Rattle.std.specs.Prelude.{◌≡◌, ◌≤◌, ◌+◌, [], ◌∷◌, ◌++◌, ◌&&◌, codes, false, flat_map, length, map, not, pos, int_lt, take, IfOk};
ghost use Rattle.std.specs.List.{list_any};
ghost use Rattle.cgl_num.specs.Decimal.{decimal_text};
ghost use Rattle.cgl_deck.specs.DeckLength.{most};
ghost use Rattle.cgl_deck.specs.DeckOutput.{Longer, is_written};
ghost use Rattle.cgl_deck.specs.DeckText.{both_text, bound_line, bound_text, column_text, columns_text, data_line, deck_text, is_zero_decimal, kind_word, lower_text, marker_text, name_text, range_text, rhs_text, row_name, row_text, section_text, sense_text};

use crate::output::Output;
use cgl_model::{Column, Model, Row, RowKind};
use cgl_num::{Dec, Memory};
use cgl_text::Builder;
use std::alloc::Global;

/// The most bytes of a word in a line that is put together before it is written.
const SHORT_WORD: usize = 54;

// ---- numbers

fn is_zero(number: Dec) -> bool
    ensures { result ≡ is_zero_decimal number }
{
    number.m() == 0
}

/// Whether of two finite bounds the upper one alone is written.
fn is_upper_alone(lo: Dec, up: Dec) -> bool
    ensures { result ≡ (is_zero_decimal lo && not (int_lt up.m (pos 0))) }
{
    lo.m() == 0 && up.m() >= 0
}

// ---- lines

/// A word behind a space.
fn add_word(output: &mut Output, word: &[u8])
    ensures { Longer (32 ∷ word.now) output.old output.new }
{
    output.append(b" ");
    output.append(word);
}

/// A number behind a space.
fn add_number(output: &mut Output, number: Dec)
    ensures { Longer (32 ∷ decimal_text number) output.old output.new }
{
    output.append(b" ");
    output.append_number(number);
}

/// A line with each word behind a space.
fn add_line(output: &mut Output, words: &[&[u8]])
    ensures { Longer (data_line (map (λ word. word.now) words.now)) output.old output.new }
{
    for word in words {
        add_word(output, word);
    }
    output.append(b"\n");
}

/// Puts a piece into a line at a place. The place behind it.
fn put(line: &mut [u8], at: usize, piece: &[u8]) -> usize
    requires room { at + length piece.now ≤ length line.old }
    ensures text { take result line.new ≡ take at line.old ++ piece.now }
    ensures place { result ≡ at + length piece.now }
    ensures length { length line.new ≡ length line.old }
{
    let end = at + piece.len();
    line[at..end].copy_from_slice(piece);
    end
}

/// A line with short names that ends with a number, put together before it is written.
fn add_short_line(output: &mut Output, first: &[u8], second: &[u8], number: Dec)
    requires first { length first.now ≤ 54 }
    requires second { length second.now ≤ 54 }
    ensures { Longer (data_line (first.now ∷ second.now ∷ decimal_text number ∷ [])) output.old output.new }
{
    let mut digits = [0; 48];
    let count = number.digits(&mut digits);
    let mut line = [0; 160];
    let at = put(&mut line, 0, b" ");
    let at = put(&mut line, at, first);
    let at = put(&mut line, at, b" ");
    let at = put(&mut line, at, second);
    let at = put(&mut line, at, b" ");
    let at = put(&mut line, at, &digits[..count]);
    let at = put(&mut line, at, b"\n");
    output.append(&line[..at]);
}

/// The length of a line that ends with a number, or the greatest u64.
fn number_line_len(first: &[u8], second: &[u8], number: Dec) -> u64
    ensures { result ≡ most (length (data_line (first.now ∷ second.now ∷ decimal_text number ∷ []))) }
{
    (first.len() as u64)
        .saturating_add(second.len() as u64)
        .saturating_add(number.text_len() as u64)
        .saturating_add(4)
}

/// A line that ends with a number, of words of any length.
fn add_long_line(output: &mut Output, first: &[u8], second: &[u8], number: Dec)
    ensures { Longer (data_line (first.now ∷ second.now ∷ decimal_text number ∷ [])) output.old output.new }
{
    add_word(output, first);
    add_word(output, second);
    add_number(output, number);
    output.append(b"\n");
}

/// A line that ends with a number.
fn add_number_line(output: &mut Output, first: &[u8], second: &[u8], number: Dec)
    ensures { Longer (data_line (first.now ∷ second.now ∷ decimal_text number ∷ [])) output.old output.new }
{
    if !output.is_kept() {
        output.measure(number_line_len(first, second, number));
    } else if first.len() <= SHORT_WORD && second.len() <= SHORT_WORD {
        add_short_line(output, first, second, number);
    } else {
        add_long_line(output, first, second, number);
    }
}

// ---- name and sense

fn add_name(output: &mut Output, name: &[u8])
    ensures { Longer (name_text name.now) output.old output.new }
{
    output.append(b"NAME");
    if name.is_empty() {
        output.append(b"\n");
    } else {
        add_line(output, &[name]);
    }
}

fn add_sense(output: &mut Output, maximise: bool)
    ensures { Longer (sense_text maximise) output.old output.new }
{
    if maximise {
        output.append(b"OBJSENSE\n MAX\n");
    }
}

// ---- rows

fn kind_letter(kind: RowKind) -> u8
    ensures { result ∷ [] ≡ kind_word kind }
{
    match kind {
        RowKind::N => b'N',
        RowKind::L => b'L',
        RowKind::G => b'G',
        RowKind::E => b'E',
    }
}

fn add_row(output: &mut Output, row: &Row)
    ensures { Longer (row_text row.now) output.old output.new }
{
    let kind = [kind_letter(row.kind)];
    add_line(output, &[&kind, row.name.as_slice()]);
}

fn add_rows(output: &mut Output, rows: &[Row])
    ensures { Longer (flat_map row_text rows.now) output.old output.new }
{
    for row in rows {
        add_row(output, row);
    }
}

// ---- columns

/// An empty name where there is no such row.
fn name_of_row(rows: &[Row], row: u32) -> &[u8]
    ensures { result.now ≡ row_name rows.now row }
{
    match rows.get(row as usize) {
        Some(found) => found.name.as_slice(),
        None => &[],
    }
}

fn add_column(output: &mut Output, rows: &[Row], column: &Column)
    ensures { Longer (column_text rows.now column.now) output.old output.new }
{
    let name = column.name.as_slice();
    let entries = column.entries.as_slice();
    for entry in entries {
        add_number_line(output, name, name_of_row(rows, entry.0), entry.1);
    }
}

fn add_marker(output: &mut Output, before: bool, integer: bool)
    ensures { Longer (marker_text before integer) output.old output.new }
{
    match (before, integer) {
        (false, true) => output.append(b" MARKER 'MARKER' 'INTORG'\n"),
        (true, false) => output.append(b" MARKER 'MARKER' 'INTEND'\n"),
        (true, true) | (false, false) => {}
    }
}

fn add_columns(output: &mut Output, rows: &[Row], columns: &[Column])
    ensures { Longer (columns_text rows.now false columns.now) output.old output.new }
{
    let mut before = false;
    for column in columns {
        add_marker(output, before, column.integer);
        add_column(output, rows, column);
        before = column.integer;
    }
    add_marker(output, before, false);
}

// ---- sections with no header where they have no line

fn has_rhs(row: &Row) -> bool
    ensures { result ≡ is_written (rhs_text row.now) }
{
    !is_zero(row.rhs)
}

fn add_rhs(output: &mut Output, row: &Row)
    ensures { Longer (rhs_text row.now) output.old output.new }
{
    if !is_zero(row.rhs) {
        add_number_line(output, b"RHS", row.name.as_slice(), row.rhs);
    }
}

fn add_right_sides(output: &mut Output, rows: &[Row])
    ensures { Longer (flat_map rhs_text rows.now) output.old output.new }
{
    for row in rows {
        add_rhs(output, row);
    }
}

fn has_right_sides(rows: &[Row]) -> bool
    ensures { result ≡ list_any (λ row. is_written (rhs_text row)) rows.now }
{
    rows.iter().any(|row| has_rhs(row))
}

fn add_right_side_section(output: &mut Output, rows: &[Row])
    ensures { Longer (section_text (codes "RHS\n") (flat_map rhs_text rows.now)) output.old output.new }
{
    if has_right_sides(rows) {
        output.append(b"RHS\n");
        add_right_sides(output, rows);
    }
}

fn has_range(row: &Row) -> bool
    ensures { result ≡ is_written (range_text row.now) }
{
    row.range.is_some()
}

fn add_range(output: &mut Output, row: &Row)
    ensures { Longer (range_text row.now) output.old output.new }
{
    if let Some(range) = row.range {
        add_number_line(output, b"RNG", row.name.as_slice(), range);
    }
}

fn add_ranges(output: &mut Output, rows: &[Row])
    ensures { Longer (flat_map range_text rows.now) output.old output.new }
{
    for row in rows {
        add_range(output, row);
    }
}

fn has_ranges(rows: &[Row]) -> bool
    ensures { result ≡ list_any (λ row. is_written (range_text row)) rows.now }
{
    rows.iter().any(|row| has_range(row))
}

fn add_range_section(output: &mut Output, rows: &[Row])
    ensures { Longer (section_text (codes "RANGES\n") (flat_map range_text rows.now)) output.old output.new }
{
    if has_ranges(rows) {
        output.append(b"RANGES\n");
        add_ranges(output, rows);
    }
}

// ---- bounds

/// A bound's record without a number.
fn add_mark(output: &mut Output, kind: &[u8], name: &[u8])
    ensures { Longer (bound_line kind.now name.now []) output.old output.new }
{
    add_line(output, &[kind, b"BND", name]);
}

fn add_value(output: &mut Output, kind: &[u8], name: &[u8], value: Dec)
    ensures { Longer (bound_line kind.now name.now (decimal_text value ∷ [])) output.old output.new }
{
    add_word(output, kind);
    add_word(output, b"BND");
    add_word(output, name);
    add_number(output, value);
    output.append(b"\n");
}

fn add_both(output: &mut Output, name: &[u8], lo: Dec, up: Dec)
    ensures { Longer (both_text name.now lo up) output.old output.new }
{
    if is_upper_alone(lo, up) {
        add_value(output, b"UP", name, up);
        return;
    }
    add_value(output, b"LO", name, lo);
    add_value(output, b"UP", name, up);
}

fn add_lower(output: &mut Output, name: &[u8], integer: bool, lower: Dec)
    ensures { Longer (lower_text name.now integer lower) output.old output.new }
{
    if !is_zero(lower) {
        add_value(output, b"LO", name, lower);
    } else if integer {
        add_mark(output, b"PL", name);
    }
}

/// Whether the column has a bound's record: not so exactly where it is not integer and has a lower bound of 0 alone.
fn has_bound(column: &Column) -> bool
    ensures { result ≡ is_written (bound_text column.now) }
{
    match (column.lo, column.up) {
        (Some(lo), None) => column.integer || !is_zero(lo),
        (None, _) | (Some(_), Some(_)) => true,
    }
}

fn add_bound(output: &mut Output, column: &Column)
    ensures { Longer (bound_text column.now) output.old output.new }
{
    let name = column.name.as_slice();
    match (column.lo, column.up) {
        (None, None) => add_mark(output, b"FR", name),
        (None, Some(up)) => {
            add_mark(output, b"MI", name);
            add_value(output, b"UP", name, up);
        }
        (Some(lo), None) => add_lower(output, name, column.integer, lo),
        (Some(lo), Some(up)) => {
            if lo == up {
                add_value(output, b"FX", name, lo);
            } else {
                add_both(output, name, lo, up);
            }
        }
    }
}

fn add_bounds(output: &mut Output, columns: &[Column])
    ensures { Longer (flat_map bound_text columns.now) output.old output.new }
{
    for column in columns {
        add_bound(output, column);
    }
}

fn has_bounds(columns: &[Column]) -> bool
    ensures { result ≡ list_any (λ column. is_written (bound_text column)) columns.now }
{
    columns.iter().any(|column| has_bound(column))
}

fn add_bound_section(output: &mut Output, columns: &[Column])
    ensures { Longer (section_text (codes "BOUNDS\n") (flat_map bound_text columns.now)) output.old output.new }
{
    if has_bounds(columns) {
        output.append(b"BOUNDS\n");
        add_bounds(output, columns);
    }
}

// ---- all

fn add_deck(output: &mut Output, model: &Model)
    ensures { Longer (deck_text model.now) output.old output.new }
{
    let rows = model.rows.as_slice();
    let columns = model.cols.as_slice();
    add_name(output, model.name.as_slice());
    add_sense(output, model.maximise);
    output.append(b"ROWS\n");
    add_rows(output, rows);
    output.append(b"COLUMNS\n");
    add_columns(output, rows, columns);
    add_right_side_section(output, rows);
    add_range_section(output, rows);
    add_bound_section(output, columns);
    output.append(b"ENDATA\n");
}

/// The canonical text of a model, as bytes. Its length is that of `deck_len`, and has no limit here.
/// An entry in a row that the model does not have is written with an empty name; a valid model has none.
///
/// # Errors
///
/// `Memory` for want of memory.
pub(crate) fn deck_text(alloc: Global, model: &Model) -> Result<Vec<u8>, Memory>
    ensures { IfOk result (λ text. text.items ≡ deck_text model.now) }
{
    let mut output = Output {
        len: 0,
        bytes: Some(Builder::new(alloc)),
    };
    add_deck(&mut output, model);
    match output.bytes {
        Some(bytes) => bytes.finish(),
        None => unreachable!(),
    }
}

/// The length in bytes of the canonical text of a model, or the greatest u64 where the text is longer. Takes no memory.
pub fn deck_len(model: &Model) -> u64
    ensures { result ≡ most (length (deck_text model.now)) }
{
    let mut output = Output::counting();
    add_deck(&mut output, model);
    output.len
}
