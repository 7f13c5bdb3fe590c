//! Cases of decks, and of a point.
ghost use Rattle.cgl_model.specs.Valid.{IsValid};

use crate::bytes::bytes_of;
use crate::lines::Dribble;
use crate::numbers::fraction;
use cgl_deck::{cut_names, deck_len, write_deck};
use cgl_model::{End, Forms, Ineq, Model, Place, Point, Seq, Terms};
use cgl_mps::read_deck;
use cgl_outside::{ReadError, SureShelf};
use std::alloc::Global;

/// Tells a point x, and by how much it violates `2x >= 1`.
pub fn tell_violation(rt: &impl Print, alloc: Global, word: &str) -> Option<()> {
    let x = fraction(word)?;
    let mut terms = Terms::new(alloc);
    let Ok(()) = terms.push((0, 2)) else {
        return None;
    };
    let mut numerators = Seq::new(alloc);
    let Ok(()) = numerators.push(x.num()) else {
        return None;
    };
    let point = Point::new(numerators, x.den());
    let violation = Ineq { terms, rhs: 1 }.violation(&point);
    let numerators = point.numerators();
    println!(rt;
        "  {numerators:?} over {}: {violation:?}",
        point.denominator()
    )
    .ok()
}

/// Whether the model that the file `text` means is written as the same text.
fn is_written_again(alloc: Global, files: &mut SureShelf) -> Option<bool> {
    let model = read_deck(alloc, files, "text").ok()?;
    write_deck(alloc, &model, files, "again").ok()?;
    Some(files.file("again") == files.file("text"))
}

/// Tells the canonical text as a file holds it, and whether it has the length that is told without it and is read and
/// written again as the same text.
fn tell_text(rt: &impl Print, alloc: Global, files: &mut SureShelf, model: &Model) -> Option<()>
    requires { IsValid model.now }
{
    write_deck(alloc, model, files, "text").ok()?;
    let is_again = is_written_again(alloc, files)?;
    let text = files.file("text")?;
    let has_length = text.len() as u64 == deck_len(model);
    println!(rt; "  {has_length} {is_again} {}", text.escape_ascii()).ok()
}

/// Tells the names of three cuts.
fn tell_names(rt: &impl Print, alloc: Global, model: &Model) -> Option<()> {
    let names = cut_names(alloc, model, 3).ok()?;
    for name in names.as_slice() {
        println!(rt; "  {}", name.as_slice().escape_ascii()).ok()?;
    }
    Some(())
}

fn tell_row(rt: &impl Print, forms: &Forms, row: u32) -> Option<()> {
    let lower = forms.find(Place::Row(row, End::Lower));
    let upper = forms.find(Place::Row(row, End::Upper));
    println!(rt; "  row {row}: {lower:?} {upper:?} wide {}", forms.wide(row)).ok()?;
    match forms.row_form(row) {
        Some(form) => println!(rt; "    from {:?} to {:?}", form.lo, form.up).ok(),
        None => Some(()),
    }
}

/// Tells the numbers of the sides of each row and column, and of one of each that is not there, and the sides.
fn tell_forms(rt: &impl Print, forms: &Forms, rows: u32, columns: u32) -> Option<()> {
    for row in 0..=rows {
        tell_row(rt, forms, row)?;
    }
    for column in 0..=columns {
        let lower = forms.find(Place::Bound(column, End::Lower));
        let upper = forms.find(Place::Bound(column, End::Upper));
        println!(rt; "  column {column}: {lower:?} {upper:?}").ok()?;
    }
    for side in forms.sides() {
        let terms = side.ineq.terms.as_slice();
        println!(rt; "  {:?}: {terms:?} >= {}", side.place, side.ineq.rhs).ok()?;
    }
    Some(())
}

/// Tells the text of a model, names of cuts, and its sides.
fn tell_model(rt: &impl Print, alloc: Global, files: &mut SureShelf, model: &Model) -> Option<()>
    requires { IsValid model.now }
{
    tell_text(rt, alloc, files, model)?;
    tell_names(rt, alloc, model)?;
    let forms = Forms::build(alloc, model).ok()?;
    let rows = model.rows.as_slice().len() as u32;
    tell_forms(rt, &forms, rows, model.cols.as_slice().len() as u32)
}

/// Tells the model of a deck, or the deck's first bad line and kind, where each read gives one byte.
pub fn tell_deck(rt: &impl Print, alloc: Global, files: &mut SureShelf, text: &str) -> Option<()> {
    let mut shelf = Dribble {
        bytes: bytes_of(alloc, text)?,
    };
    match read_deck(alloc, &mut shelf, "deck") {
        Ok(model) => tell_model(rt, alloc, files, &model),
        Err(ReadError::Fault { line, kind }) => println!(rt; "  line {line} kind {kind}").ok(),
        Err(ReadError::ReadFault | ReadError::Memory) => None,
    }
}
