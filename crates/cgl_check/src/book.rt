ghost use Rattle.std.specs.Prelude.{◌≡◌, ◌<◌, [], ◌^◌, length, IfErr, IfOk, OnOk, None, Some};
ghost use Rattle.cgl_model.specs.Feasible.{IsFeasible};
ghost use Rattle.cgl_model.specs.IntegerForm.{forms_of};
ghost use Rattle.cgl_model.specs.Point.{Point};
ghost use Rattle.cgl_derive.specs.Books.{BookIsRight, inequalities};
ghost use Rattle.cgl_derive.specs.Soundness.{AreMet};
ghost use Rattle.cgl_check.specs.Accepted.{IfRefused, IsAccepted, cut_refusal, entry_failure, first_refusal, refused, shared_refusal};
ghost use Rattle.cgl_check.specs.Tests.{AreOverColumns};

use crate::laws::{book_soundness, exactness};
use crate::path::{Path, Reject};
use crate::reasons::BAD_REF;
use crate::refusal::{BookError, BookRefusal, EntryPlace};
use crate::work::{Work, check};
use cgl_derive::{Book, Derivation, are_columns};
use cgl_model::{Forms, Ineq, Model};
use cgl_num::Memory;
use std::alloc::Global;

fn copy(alloc: Global, ineq: &Ineq) -> Result<Ineq, Memory>
    ensures { IfOk result (λ copy. copy ≡ ineq.now) }
{
    let Ok(terms) = ineq.terms.copy(alloc) else {
        return Err(Memory);
    };
    Ok(Ineq {
        terms,
        rhs: ineq.rhs,
    })
}

/// Copies of the inequalities of entries.
fn inequalities(alloc: Global, entries: &[(Ineq, Derivation)]) -> Result<Vec<Ineq>, Memory>
    ensures { IfOk result (λ copies. copies.items ≡ inequalities entries.now) }
{
    let Ok(mut copies) = Vec::with_capacity(alloc, entries.len()) else {
        return Err(Memory);
    };
    for entry in entries {
        let Ok(ineq) = copy(alloc, &entry.0) else {
            return Err(Memory);
        };
        let Ok(()) = copies.push(ineq) else {
            return Err(Memory);
        };
    }
    Ok(copies)
}

/// An entry by itself, from the inequalities that are shared before it.
fn check_entry(
    alloc: Global,
    m: &Model,
    forms: &Forms,
    shared: &[Ineq],
    entry: &(Ineq, Derivation),
    place: EntryPlace,
    work: &mut Work,
) -> Result<(), BookError>
    requires forms { forms.now ≡ forms_of m.now }
    requires shared { AreOverColumns m.now shared.now }
    requires work { work.old.columns ≡ length m.now.cols }
    ensures ok { OnOk result (entry_failure m.now shared.now entry.now ≡ None) }
    ensures err { IfErr result (λ e. IfRefused e (λ refusal. refused place (entry_failure m.now shared.now entry.now) ≡ Some refusal)) }
    ensures work { work.new.columns ≡ work.old.columns }
{
    let (ineq, derivation) = entry;
    if !are_columns(m, ineq.terms.as_slice()) {
        return Err(BookError::Refused(BookRefusal {
            entry: place,
            reject: Reject {
                path: Path::new(),
                why: BAD_REF,
            },
        }));
    }
    let Ok(()) = work.fit(alloc, m, forms, shared, derivation) else {
        return Err(BookError::Memory);
    };
    if let Err(reject) = check(m, forms, shared, derivation, ineq, work) {
        return Err(BookError::Refused(BookRefusal {
            entry: place,
            reject,
        }));
    }
    Ok(())
}

/// Shared inequalities in order, each from those before it. The claims are the inequalities of the entries.
fn check_shared(
    alloc: Global,
    m: &Model,
    forms: &Forms,
    claims: &[Ineq],
    entries: &[(Ineq, Derivation)],
    work: &mut Work,
) -> Result<(), BookError>
    requires forms { forms.now ≡ forms_of m.now }
    requires claims { claims.now ≡ inequalities entries.now }
    requires work { work.old.columns ≡ length m.now.cols }
    ensures ok { OnOk result (shared_refusal m.now [] 0 entries.now ≡ None) }
    ensures err { IfErr result (λ e. IfRefused e (λ refusal. shared_refusal m.now [] 0 entries.now ≡ Some refusal)) }
    ensures work { work.new.columns ≡ work.old.columns }
{
    for (k, entry) in entries.iter().enumerate() {
        let place = EntryPlace::Shared(k as u64);
        if let Err(e) = check_entry(alloc, m, forms, &claims[..k], entry, place, work) {
            return Err(e);
        }
    }
    Ok(())
}

/// Cuts in order, each from all inequalities that are shared.
fn check_cuts(
    alloc: Global,
    m: &Model,
    forms: &Forms,
    shared: &[Ineq],
    entries: &[(Ineq, Derivation)],
    work: &mut Work,
) -> Result<(), BookError>
    requires forms { forms.now ≡ forms_of m.now }
    requires shared { AreOverColumns m.now shared.now }
    requires work { work.old.columns ≡ length m.now.cols }
    ensures ok { OnOk result (cut_refusal m.now shared.now 0 entries.now ≡ None) }
    ensures err { IfErr result (λ e. IfRefused e (λ refusal. cut_refusal m.now shared.now 0 entries.now ≡ Some refusal)) }
{
    for (k, entry) in entries.iter().enumerate() {
        let place = EntryPlace::Cut(k as u64);
        if let Err(e) = check_entry(alloc, m, forms, shared, entry, place, work) {
            return Err(e);
        }
    }
    Ok(())
}

/// Whether each entry of a book is right: each shared inequality from those before it, and each cut from all of them. Takes
/// memory for one copy of the shared inequalities, and for what the entries are checked in.
///
/// # Errors
///
/// `Refused` exactly where an entry is not right: the first one, the shared inequalities in order before the cuts. `Memory`
/// where memory is refused before that is known, and for no other cause.
pub fn check_book(alloc: Global, m: &Model, forms: &Forms, book: &Book) -> Result<(), BookError>
    requires columns { length m.now.cols < 2 ^ 32 }
    requires forms { forms.now ≡ forms_of m.now }
    ensures ok { OnOk result (BookIsRight m.now book.now) }
    ensures err { IfErr result (λ e. IfRefused e (λ refusal. first_refusal m.now book.now ≡ Some refusal)) }
    ensures none { OnOk result (IsAccepted m.now book.now) }
    ensures refused { IfErr result (λ e. IfRefused e (λ refusal. ¬ BookIsRight m.now book.now)) }
    ensures sound { OnOk result ((x : Point) → IsFeasible m.now x → AreMet x (inequalities book.now.shared) × AreMet x (inequalities book.now.cuts)) }
{
    m.has_decimals();
    exactness();
    book_soundness();
    let Ok(shared) = inequalities(alloc, book.shared.as_slice()) else {
        return Err(BookError::Memory);
    };
    let Ok(mut work) = Work::bare(alloc, m) else {
        return Err(BookError::Memory);
    };
    let claims = shared.as_slice();
    if let Err(e) = check_shared(alloc, m, forms, claims, book.shared.as_slice(), &mut work) {
        return Err(e);
    }
    if let Err(e) = check_cuts(alloc, m, forms, claims, book.cuts.as_slice(), &mut work) {
        return Err(e);
    }
    Ok(())
}
