//! Whether a deck with the cuts of a book, and the book, are accepted for a model.

ghost use Rattle.std.specs.Prelude.{◌≡◌, ◌⊎◌, None, Some, IfErr, IfOk, OnOk};
ghost use Rattle.cgl_model.specs.Valid.{IsSized, IsValid};
ghost use Rattle.cgl_deck.specs.Extended.{extended};
ghost use Rattle.cgl_derive.specs.Books.{inequalities};
ghost use Rattle.cgl_check.specs.Accepted.{first_refusal};
ghost use Rattle.cgl_app.specs.Verdict.{entry_verdict, is_extension, verdict};
ghost use Rattle.cgl_app.specs.declared.refusal.Unaccepted.{Unaccepted as Failing};

use crate::same::same_model;
use crate::{CheckFile, Refusal, Unaccepted};
use cgl_check::{BookError, check_book};
use cgl_deck::{ExtendError, refusal_laws, with_cuts};
use cgl_derive::{Book, Derivation};
use cgl_model::{Forms, Ineq, Model};
use cgl_num::Memory;
use std::alloc::Global;

fn copy(alloc: Global, ineq: &Ineq) -> Result<Ineq, Memory>
    ensures { IfOk result (λ copy. copy ≡ ineq.now) }
{
    let Ok(terms) = ineq.terms.copy(alloc) else {
        return Err(Memory);
    };
    Ok(Ineq {
        terms,
        rhs: ineq.rhs,
    })
}

/// Copies of the inequalities of entries.
fn inequalities(alloc: Global, entries: &[(Ineq, Derivation)]) -> Result<Vec<Ineq>, Memory>
    ensures { IfOk result (λ copies. copies.items ≡ inequalities entries.now) }
{
    let Ok(mut copies) = Vec::with_capacity(alloc, entries.len()) else {
        return Err(Memory);
    };
    for entry in entries {
        let Ok(ineq) = copy(alloc, &entry.0) else {
            return Err(Memory);
        };
        let Ok(()) = copies.push(ineq) else {
            return Err(Memory);
        };
    }
    Ok(copies)
}

/// Whether the deck is the model with the cuts as further rows.
fn is_extension(alloc: Global, m: &Model, deck: &Model, cuts: &[Ineq]) -> Result<bool, Memory>
    requires { IsValid m.now }
    ensures { IfOk result (λ is. is ≡ is_extension deck.now (extended m.now cuts.now)) }
{
    if u32::try_from(cuts.len()).is_err() {
        return Err(Memory);
    }
    refusal_laws();
    match with_cuts(alloc, m, cuts) {
        Ok(extension) => Ok(same_model(&extension, deck)),
        Err(ExtendError::Memory) => Err(Memory),
        Err(_) => Ok(false),
    }
}

/// The first refusal of the book, if there is one.
fn entries(alloc: Global, m: &Model, book: &Book) -> Result<(), Refusal<CheckFile>>
    requires { IsSized m.now }
    ensures ok { OnOk result (first_refusal m.now book.now ≡ None) }
    ensures refused { IfErr result (λ e. (e ≡ Refusal.Memory) ⊎ ((u : Failing) × (e ≡ Refusal.NotAccepted u) × (entry_verdict (first_refusal m.now book.now) ≡ Some u))) }
{
    let Ok(forms) = Forms::build(alloc, m) else {
        return Err(Refusal::Memory);
    };
    match check_book(alloc, m, &forms, book) {
        Ok(()) => Ok(()),
        Err(BookError::Memory) => Err(Refusal::Memory),
        Err(BookError::Refused(refusal)) => {
            Err(Refusal::NotAccepted(Unaccepted::Entry(refusal)))
        }
    }
}

/// Accepts the deck with the cuts of the book, and the book, or tells what is not accepted first.
pub fn accept(alloc: Global, m: &Model, deck: &Model, book: &Book) -> Result<(), Refusal<CheckFile>>
    requires { IsValid m.now }
    ensures ok { OnOk result (verdict m.now deck.now book.now ≡ None) }
    ensures refused { IfErr result (λ e. (e ≡ Refusal.Memory) ⊎ ((u : Failing) × (e ≡ Refusal.NotAccepted u) × (verdict m.now deck.now book.now ≡ Some u))) }
{
    let Ok(cuts) = inequalities(alloc, book.cuts.as_slice()) else {
        return Err(Refusal::Memory);
    };
    let Ok(is_extension) = is_extension(alloc, m, deck, &cuts) else {
        return Err(Refusal::Memory);
    };
    if !is_extension {
        return Err(Refusal::NotAccepted(Unaccepted::Deck));
    }
    entries(alloc, m, book)
}
