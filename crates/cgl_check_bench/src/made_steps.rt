ghost use Rattle.std.specs.Prelude.{ℕ, ◌≤◌, ◌<◌, ◌+◌, OnSome};
ghost use Rattle.cgl_model.specs.Rising.{IsAboveAll};

use crate::made_model::ROWS;
use cgl_derive::{Book, Derivation, Lin, Ref, Step};
use cgl_model::{End, Ineq, Place, Seq, Terms};
use sqlite_items::Items;
use std::alloc::Global;

/// The rows that a sum has, each with the upper bound of the column behind it: ten references.
const ROWS_OF_SUM: u32 = 5;

/// The rows from one of a sum to its next.
const APART: u32 = ROWS / ROWS_OF_SUM;

/// How often each reference is taken, and the claim.
const TIMES: i128 = 3;

/// What an end of a row and the bound behind it say: `-3a - 3b - 3c - 3d - e >= -6`.
#[tactic(auto, using(crate::proofs::AboveLaws::above_push))]
fn add_terms(terms: &mut Terms, first: u32) -> Option<()>
    requires above { IsAboveAll terms.old first }
    requires narrow { first ≤ 10000 }
    ensures { OnSome result ((next : ℕ) → first + 4 < next → IsAboveAll terms.new next) }
{
    for column in first..first + 4 {
        terms.push((column, -3)).ok()?;
    }
    terms.push((first + 4, -1)).ok()
}

/// The claim of the sum whose first row has this number.
fn claim(alloc: Global, row: u32) -> Option<Ineq>
    requires { row ≤ 499 }
{
    let mut terms = Terms::new(alloc);
    for k in 0..ROWS_OF_SUM {
        add_terms(&mut terms, (row + k * APART) * 4)?;
    }
    Some(Ineq {
        terms,
        rhs: -6 * ROWS_OF_SUM as i128,
    })
}

fn references(alloc: Global, row: u32) -> Option<Items<(Ref, i128)>>
    requires { row ≤ 499 }
{
    let mut refs = Items::new(alloc);
    for k in 0..ROWS_OF_SUM {
        let row = row + k * APART;
        refs.push((Ref::Side(Place::Row(row, End::Upper)), TIMES))
            .ok()?;
        refs.push((Ref::Side(Place::Bound(row * 4 + 4, End::Upper)), TIMES))
            .ok()?;
    }
    Some(refs)
}

fn sum(alloc: Global, row: u32) -> Option<Step>
    requires { row ≤ 499 }
{
    Some(Step::Lin(Lin {
        refs: references(alloc, row)?,
        q: TIMES,
        claim: claim(alloc, row)?,
    }))
}

/// The number of the first row of a sum.
fn first_row(sum: u32) -> u32
    ensures { result ≤ 499 }
{
    sum % (APART - 1)
}

/// So many weighted sums of ten ends each, all right. The last claims what is derived.
pub fn derivation(alloc: Global, sums: u32) -> Option<Derivation> {
    let mut steps = Items::new(alloc);
    for at in 0..sums {
        steps.push(sum(alloc, first_row(at))?).ok()?;
    }
    Some(Derivation { steps })
}

/// What the last of so many sums claims; none where there are no sums.
pub fn cut(alloc: Global, sums: u32) -> Option<Ineq> {
    let last = sums.checked_sub(1)?;
    claim(alloc, first_row(last))
}

/// A sum alone, with what it claims.
fn summed(alloc: Global, row: u32) -> Option<(Ineq, Derivation)>
    requires { row ≤ 499 }
{
    let mut steps = Items::new(alloc);
    steps.push(sum(alloc, row)?).ok()?;
    Some((claim(alloc, row)?, Derivation { steps }))
}

/// What the first sum claims, taken from the first inequality that is shared.
fn taken(alloc: Global) -> Option<(Ineq, Derivation)> {
    let mut refs = Items::new(alloc);
    refs.push((Ref::Shared(0), 1)).ok()?;
    let mut steps = Items::new(alloc);
    let lin = Lin {
        refs,
        q: 1,
        claim: claim(alloc, 0)?,
    };
    steps.push(Step::Lin(lin)).ok()?;
    Some((claim(alloc, 0)?, Derivation { steps }))
}

/// A right book: it shares what the first sum claims, and has so many cuts of one sum each before one that is taken from
/// what is shared.
pub fn book(alloc: Global, cuts: u32) -> Option<Book> {
    let mut shared = Vec::new(alloc);
    shared.push(summed(alloc, 0)?).ok()?;
    let mut entries = Vec::new(alloc);
    for at in 0..cuts {
        entries.push(summed(alloc, first_row(at))?).ok()?;
    }
    entries.push(taken(alloc)?).ok()?;
    Some(Book {
        shared: Seq::from_vec(shared),
        cuts: Seq::from_vec(entries),
    })
}
