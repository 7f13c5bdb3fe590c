//! The names of inequalities.

ghost use Rattle.std.specs.Prelude.{◌≡◌, ◌-◌, length, option_and_then, option_map, take};
ghost use Rattle.cgl_model.specs.declared.places.Place.TheVariants.{Bound, Row};
ghost use Rattle.cgl_derive.specs.declared.step.Ref.TheVariants as by;
ghost use Rattle.cgl_prooftext.specs.LineResult.{end_in, natural_in, ref_in, side_in};
ghost use Rattle.cgl_prooftext.specs.Readings.{fits_ref, fitting};
ghost use Rattle.cgl_prooftext.specs.Sizes.{fitting_number};

use crate::numbers::number;
use cgl_derive::Ref;
use cgl_model::{End, Place};

/// The end that the last letter says.
fn end(text: &[u8]) -> Option<End>
    ensures { result ≡ end_in text.now }
{
    if text.is_empty() {
        return None;
    }
    let letter = text[text.len() - 1];
    if letter == b'L' {
        return Some(End::Lower);
    }
    if letter == b'U' {
        return Some(End::Upper);
    }
    None
}

/// A number, none where it is too large, before the letter of an end.
fn number_and_end(text: &[u8]) -> Option<(Option<u32>, End)>
    ensures { result ≡ option_and_then (λ side. option_map (λ n. (fitting_number n, side)) (natural_in (take (length text.now - 1) text.now))) (end_in text.now) }
{
    let Some(end) = end(text) else {
        return None;
    };
    let Some(n) = number(&text[..text.len() - 1]) else {
        return None;
    };
    Some((n, end))
}

fn row(text: &[u8]) -> Option<Option<Ref>>
    ensures { result ≡ option_map (fitting fits_ref) (side_in Row text.now) }
{
    match number_and_end(text) {
        None => None,
        Some((None, _)) => Some(None),
        Some((Some(row), end)) => Some(Some(Ref::Side(Place::Row(row, end)))),
    }
}

fn bound(text: &[u8]) -> Option<Option<Ref>>
    ensures { result ≡ option_map (fitting fits_ref) (side_in Bound text.now) }
{
    match number_and_end(text) {
        None => None,
        Some((None, _)) => Some(None),
        Some((Some(column), end)) => Some(Some(Ref::Side(Place::Bound(column, end)))),
    }
}

fn step(text: &[u8]) -> Option<Option<Ref>>
    ensures { result ≡ option_map (fitting fits_ref) (option_map by.Step (natural_in text.now)) }
{
    match number(text) {
        None => None,
        Some(None) => Some(None),
        Some(Some(step)) => Some(Some(Ref::Step(step))),
    }
}

fn given(text: &[u8]) -> Option<Option<Ref>>
    ensures { result ≡ option_map (fitting fits_ref) (option_map by.Given (natural_in text.now)) }
{
    match number(text) {
        None => None,
        Some(None) => Some(None),
        Some(Some(given)) => Some(Some(Ref::Given(given))),
    }
}

fn shared(text: &[u8]) -> Option<Option<Ref>>
    ensures { result ≡ option_map (fitting fits_ref) (option_map by.Shared (natural_in text.now)) }
{
    match number(text) {
        None => None,
        Some(None) => Some(None),
        Some(Some(shared)) => Some(Some(Ref::Shared(shared))),
    }
}

/// What a field names, a lemma only where there are lemmas: the inner one is none where its number is too large.
pub(crate) fn reference(field: &[u8], lemmas: bool) -> Option<Option<Ref>>
    ensures { result ≡ option_map (fitting fits_ref) (ref_in lemmas field.now) }
{
    match field {
        [b'r', text @ ..] => row(text),
        [b'c', text @ ..] => bound(text),
        [b's', text @ ..] => step(text),
        [b'g', text @ ..] => given(text),
        [b'm', text @ ..] if lemmas => shared(text),
        _ => None,
    }
}
