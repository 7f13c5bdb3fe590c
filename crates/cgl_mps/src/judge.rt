//! The first fault of a line, by what is carried of the lines before it.

ghost use Rattle.std.specs.Prelude.{◌≡◌, ◌∷◌, ◌+◌, ◌&&◌, ◌≤◌, [], Some, is_some, length, nat_le, option_map};
ghost use Rattle.cgl_num.specs.NumberText.{Word, number};
ghost use Rattle.cgl_text.specs.Conditions.{first_kind};
ghost use Rattle.cgl_text.specs.Seen.{word, words};
ghost use Rattle.cgl_decode.specs.declared.kinds.Section.TheVariants.{Sense};
ghost use Rattle.cgl_decode.specs.Decode.{deck_limits};
ghost use Rattle.cgl_decode.specs.Faults.{each_pair, is_header_form, is_long, is_marker_form, is_value_of, rank, takes};
ghost use Rattle.cgl_decode.specs.Sections.{entry_pairs, pairs_of};
ghost use Rattle.cgl_mps.specs.State.{bound_conditions, column_conditions, columns_conditions, data_conditions, entry_conditions, has_header, header_conditions, is_behind, is_current, is_misplaced, line_conditions, needs, pair_conditions, pairs_in, placed_conditions, row_conditions, sense_conditions, set_conditions, value_conditions, value_of};
ghost use Rattle.cgl_mps.specs.Tables.{IsResolved, is_marked_row, resolved, resolved_all};

use crate::bound::Bound;
use crate::counts::pair_count;
use crate::numbers::{limit_of, number};
use crate::record::{Record, field};
use crate::records::is_kept;
use crate::resolve::{Resolved, resolved_at};
use crate::sections::{
    bound_in, entry_fields, is_marker, is_sense, names_row, needs_value, row_in, set_fields,
    word_at,
};
use crate::state::State;
use cgl_decode::{BoundKind, Section};
use cgl_model::{MOST_COLUMNS, MOST_ENTRIES, MOST_ROWS};
use cgl_num::{Dec, Limit, is_number_text};
use cgl_text::same_bytes;

fn is_long(name: &[u8]) -> bool
    ensures { result ≡ is_long name.now }
{
    name.len() > 255
}

// headers

fn rank(section: Section) -> u8
    ensures { result ≡ rank section }
{
    match section {
        Section::Name => 0,
        Section::Sense => 1,
        Section::Rows => 2,
        Section::Columns => 3,
        Section::End => 5,
        _ => 4,
    }
}

/// Whether the section's header stands among the lines so far.
fn has_header(section: Section, state: &State) -> bool
    ensures { result ≡ has_header section state.now }
{
    for header in state.headers() {
        if section.is(*header) {
            return true;
        }
    }
    false
}

/// Whether a header of higher rank stands among the lines so far.
fn is_behind(section: Section, state: &State) -> bool
    ensures { result ≡ is_behind section state.now }
{
    for header in state.headers() {
        if rank(section) < rank(*header) {
            return true;
        }
    }
    false
}

fn needs(section: Section, state: &State) -> bool
    ensures { result ≡ needs section state.now }
{
    match section {
        Section::Columns => has_header(Section::Rows, state),
        Section::Rhs | Section::Ranges | Section::Bounds => has_header(Section::Columns, state),
        _ => true,
    }
}

fn is_misplaced(state: &State, r: &Record) -> bool
    ensures { result ≡ is_misplaced state.now r.now }
{
    let section = r.section();
    is_behind(section, state) || has_header(section, state) || !needs(section, state)
}

fn is_sense_header(r: &Record) -> bool
    ensures { result ≡ is_header_form Sense r.now }
{
    let count = r.fields().len();
    count == 1 || (count == 2 && is_sense(field(r, 1)))
}

fn is_header_form(r: &Record) -> bool
    ensures { result ≡ is_header_form r.now.section r.now }
{
    match r.section() {
        Section::Name => true,
        Section::Sense => is_sense_header(r),
        _ => r.fields().len() == 1,
    }
}

fn header_fault(state: &State, r: &Record) -> Option<u8>
    ensures { result ≡ first_kind (header_conditions state.now r.now) }
{
    let section = r.section();
    if Section::Unsupported.is(section) {
        return Some(9);
    }
    if Section::Unknown.is(section) {
        return Some(1);
    }
    if is_misplaced(state, r) {
        return Some(2);
    }
    if !is_header_form(r) {
        return Some(3);
    }
    if Section::Name.is(section) && is_long(field(r, 1)) {
        return Some(11);
    }
    None
}

// OBJSENSE

fn sense_fault(state: &State, r: &Record) -> Option<u8>
    ensures { result ≡ first_kind (sense_conditions state.now r.now) }
{
    if state.is_sense_given() {
        return Some(2);
    }
    if !(r.fields().len() == 1 && is_sense(field(r, 0))) {
        return Some(3);
    }
    None
}

// ROWS

fn row_fault(state: &State, r: &Record) -> Option<u8>
    ensures { result ≡ first_kind (row_conditions deck_limits state.now r.now) }
{
    if row_in(r.fields()).is_none() {
        return Some(3);
    }
    let name = field(r, 1);
    if same_bytes(name, b"'MARKER'") {
        return Some(9);
    }
    if is_long(name) {
        return Some(11);
    }
    if state.rows().has(name) {
        return Some(7);
    }
    if state.rows().len() >= MOST_ROWS {
        return Some(12);
    }
    None
}

// COLUMNS

fn is_marker_form(r: &Record) -> bool
    ensures { result ≡ is_marker_form r.now }
{
    same_bytes(field(r, 2), b"'INTORG'") || same_bytes(field(r, 2), b"'INTEND'")
}

/// Whether there are as many entries, with these pairs of the line, as a deck may have.
fn is_full(state: &State, earlier: &[&[u8]]) -> bool
    ensures { result ≡ nat_le deck_limits.entries (state.now.columns.count + length (pairs_of (words earlier.now))) }
{
    let count = state.columns().count();
    count >= MOST_ENTRIES || count + pair_count(earlier) >= MOST_ENTRIES
}

/// Whether the column has an entry in the row at the place.
fn has_entry(state: &State, name: &[u8], place: usize) -> bool
    ensures { result ≡ (is_current state.now.columns name.now && is_marked_row state.now.columns place) }
{
    // few rows have an entry already, so the names are seldom compared
    state.columns().has_entry(place) && state.columns().is_current(name)
}

/// The first fault of a pair whose row is known and stands at the place.
fn placed_fault(
    state: &State,
    name: &[u8],
    earlier: &[&[u8]],
    place: usize,
    row: &[u8],
    value: Option<Dec>,
) -> Option<u8>
    ensures { (text : Word) → value ≡ number text
        → result ≡ first_kind (placed_conditions deck_limits state.now name.now
        (pairs_of (words earlier.now)) place (row.now, text)) }
{
    if has_entry(state, name, place) || names_row(earlier, row) {
        return Some(7);
    }
    if value.is_none() {
        return Some(4);
    }
    if is_full(state, earlier) {
        return Some(12);
    }
    None
}

/// The first fault of a pair with this row, of which this was found.
fn entry_fault(
    state: &State,
    name: &[u8],
    earlier: &[&[u8]],
    row: &[u8],
    pair: Resolved,
) -> Option<u8>
    ensures { (text : Word) → pair ≡ resolved state.now.rows (row.now, text)
        → result ≡ first_kind (entry_conditions deck_limits state.now name.now
        (pairs_of (words earlier.now)) (row.now, text)) }
{
    match pair.row {
        Some(place) => placed_fault(state, name, earlier, place, row, pair.value),
        None => Some(5),
    }
}

/// The first fault of at most two pairs, of which this was found.
fn entries_fault(state: &State, name: &[u8], fields: &[&[u8]], pairs: &[Resolved]) -> Option<u8>
    requires few { length fields.now ≤ 5 }
    requires found { pairs.now ≡ resolved_all state.now.rows (pairs_of (words fields.now)) }
    ensures { result
        ≡ first_kind (each_pair (entry_conditions deck_limits state.now name.now) []
        (pairs_of (words fields.now))) }
{
    if fields.len() < 2 {
        return None;
    }
    if let Some(kind) = entry_fault(state, name, &[], word_at(fields, 0), resolved_at(pairs, 0)) {
        return Some(kind);
    }
    if fields.len() < 4 {
        return None;
    }
    entry_fault(
        state,
        name,
        &fields[..2],
        word_at(fields, 2),
        resolved_at(pairs, 1),
    )
}

fn column_fault(state: &State, r: &Record, pairs: &[Resolved]) -> Option<u8>
    requires few { length r.now.fields ≤ 5 }
    requires found { pairs.now ≡ resolved_all state.now.rows (entry_pairs r.now) }
    ensures { result ≡ first_kind (column_conditions deck_limits state.now r.now) }
{
    let name = field(r, 0);
    if is_long(name) {
        return Some(11);
    }
    if state.columns().has_ended(name) {
        return Some(8);
    }
    if state.columns().len() >= MOST_COLUMNS && !state.columns().is_current(name) {
        return Some(12);
    }
    entries_fault(state, name, entry_fields(r), pairs)
}

fn columns_fault(state: &State, r: &Record, pairs: &[Resolved]) -> Option<u8>
    requires { pairs.now ≡ resolved_all state.now.rows (entry_pairs r.now) }
    ensures { result ≡ first_kind (columns_conditions deck_limits state.now r.now) }
{
    let count = r.fields().len();
    if !(count == 3 || count == 5) {
        return Some(3);
    }
    if !is_marker(r) {
        return column_fault(state, r, pairs);
    }
    if !is_marker_form(r) {
        return Some(9);
    }
    None
}

// RHS and RANGES

/// Whether the section has a value for the row.
fn has_value(section: Section, state: &State, row: &[u8]) -> bool
    ensures { result ≡ is_some (value_of state.now.rows (pairs_in section state.now) row.now) }
{
    match state.rows().find(row) {
        Some(place) => state.pairs(section).has(place),
        None => false,
    }
}

fn pair_fault(
    section: Section,
    state: &State,
    counts: bool,
    earlier: &[&[u8]],
    row: &[u8],
    value: &[u8],
) -> Option<u8>
    ensures { result
        ≡ first_kind (pair_conditions section state.now counts
        (pairs_of (words earlier.now)) (row.now, value.now)) }
{
    if counts && !state.rows().has(row) {
        return Some(5);
    }
    if counts && (has_value(section, state, row) || names_row(earlier, row)) {
        return Some(7);
    }
    if number(value).is_none() {
        return Some(4);
    }
    None
}

/// The first fault of at most two pairs.
fn pairs_fault(section: Section, state: &State, counts: bool, fields: &[&[u8]]) -> Option<u8>
    requires { length fields.now ≤ 5 }
    ensures { result
        ≡ first_kind (each_pair (pair_conditions section state.now counts) []
        (pairs_of (words fields.now))) }
{
    if fields.len() < 2 {
        return None;
    }
    if let Some(kind) = pair_fault(
        section,
        state,
        counts,
        &[],
        word_at(fields, 0),
        word_at(fields, 1),
    ) {
        return Some(kind);
    }
    if fields.len() < 4 {
        return None;
    }
    pair_fault(
        section,
        state,
        counts,
        &fields[..2],
        word_at(fields, 2),
        word_at(fields, 3),
    )
}

fn set_fault(section: Section, state: &State, r: &Record) -> Option<u8>
    ensures { result ≡ first_kind (set_conditions section state.now r.now) }
{
    let count = r.fields().len();
    if count < 2 || count > 5 {
        return Some(3);
    }
    let counts = state.pairs(section).counts(section, r);
    pairs_fault(section, state, counts, set_fields(r))
}

// BOUNDS

fn takes(kind: BoundKind, value: &Limit) -> bool
    ensures { result ≡ takes kind value.now }
{
    match value {
        Limit::Finite(_) => true,
        Limit::Minus => matches!(kind, BoundKind::Lo | BoundKind::Li),
        Limit::Plus => matches!(kind, BoundKind::Up | BoundKind::Ui),
    }
}

fn is_value_of(kind: BoundKind, value: Option<&[u8]>) -> bool
    ensures { result ≡ is_value_of kind (option_map word value.entry) }
{
    if !needs_value(kind) {
        return match value {
            Some(value) => is_number_text(value),
            None => true,
        };
    }
    match limit_of(value) {
        Some(value) => takes(kind, &value),
        None => false,
    }
}

fn value_fault(state: &State, counts: bool, bound: &Bound) -> Option<u8>
    ensures { result ≡ first_kind (value_conditions state.now counts (Some bound.now)) }
{
    if counts && !state.columns().has(bound.column) {
        return Some(6);
    }
    if !is_value_of(bound.kind, bound.value) {
        return Some(4);
    }
    None
}

fn bound_fault(state: &State, r: &Record) -> Option<u8>
    ensures { result ≡ first_kind (bound_conditions state.now r.now) }
{
    let kind = field(r, 0);
    if same_bytes(kind, b"SC") || same_bytes(kind, b"SI") {
        return Some(9);
    }
    match bound_in(r.fields()) {
        Some(bound) => value_fault(state, state.bounds().counts(r), &bound),
        None => Some(3),
    }
}

// a line

fn data_fault(state: &State, r: &Record, pairs: &[Resolved]) -> Option<u8>
    requires { IsResolved state.now.rows r.now pairs.now }
    ensures { result ≡ first_kind (data_conditions r.now.section deck_limits state.now r.now) }
{
    match r.section() {
        Section::Sense => sense_fault(state, r),
        Section::Rows => row_fault(state, r),
        Section::Columns => columns_fault(state, r, pairs),
        Section::Rhs => set_fault(Section::Rhs, state, r),
        Section::Ranges => set_fault(Section::Ranges, state, r),
        Section::Bounds => bound_fault(state, r),
        _ => Some(2),
    }
}

/// The kind of fault that the line is behind the lines so far, if it is one and ends within the limit on bytes.
pub(crate) fn line_fault(state: &State, r: &Record, pairs: &[Resolved]) -> Option<u8>
    requires { IsResolved state.now.rows r.now pairs.now }
    ensures { result ≡ first_kind (line_conditions deck_limits state.now r.now) }
{
    if r.length() > 4096 {
        return Some(11);
    }
    if !is_kept(r) {
        return None;
    }
    if r.is_header() {
        return header_fault(state, r);
    }
    data_fault(state, r, pairs)
}
