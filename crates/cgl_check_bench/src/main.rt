//! The work that `bench/check` measures: a derivation of weighted sums over a made-up model, both in memory, is checked
//! as often as it is told, and the answers are counted. Its words are the number of sums and the number of checks, and
//! after these the number of cuts of a book that is checked once.
#![tactic(auto)]

mod made_model;
mod made_steps;

ghost use Rattle.std.specs.Prelude.{◌≡◌, ◌≤◌, [], ◌^◌, length};
ghost use Rattle.cgl_model.specs.IntegerForm.{forms_of};
ghost use Rattle.cgl_derive.specs.declared.step.Derivation.{out-Derivation};
ghost use Rattle.cgl_check.specs.Room.{IsRoomFor};

use cgl_check::{BookError, Work, check, check_book};
use cgl_derive::Derivation;
use cgl_model::{Forms, Ineq, Model};
use made_model::model;
use made_steps::{book, cut, derivation};
use std::alloc::Global;
use std::env;
use std::process::ExitCode;

/// Where the words are no two numbers, the first of them above 0, where memory is refused, or where a write fails.
const FAILED: u8 = 1;

fn number_of(word: Option<&String>) -> Option<u32> {
    word?.parse::<u32>().ok()
}

/// The number of sums, the number of checks, and the number of cuts, 0 where it is not told.
fn given_numbers(rt: &HostRuntime) -> Option<(u32, u32, u32)> {
    let words: Vec<String> = env::args(rt).ok()?.collect(rt.alloc()).ok()?;
    let sums = number_of(words.get(1))?;
    let checks = number_of(words.get(2))?;
    let cuts = number_of(words.get(3)).unwrap_or(0);
    Some((sums, checks, cuts))
}

/// How many of so many checks accept the derivation of the cut.
fn accepted(
    model: &Model,
    forms: &Forms,
    derivation: &Derivation,
    cut: &Ineq,
    work: &mut Work,
    checks: u32,
) -> u32
    requires forms { forms.now ≡ forms_of model.now }
    requires work { IsRoomFor model.now [] (out-Derivation derivation.now).steps work.old }
{
    let mut accepted = 0;
    for _ in 0..checks {
        if check(model, forms, &[], derivation, cut, work).is_ok() {
            accepted += 1;
        }
    }
    accepted
}

/// How many checks accept a derivation of so many sums.
fn checked(alloc: Global, sums: u32, checks: u32) -> Option<u32> {
    let model = model(alloc)?;
    let forms = Forms::build(alloc, &model).ok()?;
    let derivation = derivation(alloc, sums)?;
    let cut = cut(alloc, sums)?;
    let mut work = Work::new(alloc, &model, &forms, &[], &derivation).ok()?;
    Some(accepted(&model, &forms, &derivation, &cut, &mut work, checks))
}

/// Whether a book of so many cuts is right; none where memory is refused.
fn is_right(alloc: Global, cuts: u32) -> Option<bool> {
    let model = model(alloc)?;
    let forms = Forms::build(alloc, &model).ok()?;
    let book = book(alloc, cuts)?;
    match check_book(alloc, &model, &forms, &book) {
        Ok(()) => Some(true),
        Err(BookError::Refused(_)) => Some(false),
        Err(BookError::Memory) => None,
    }
}

fn run(rt: &HostRuntime) -> Option<()> {
    let (sums, checks, cuts) = given_numbers(rt)?;
    let accepted = checked(rt.alloc(), sums, checks)?;
    println!(rt; "sums {sums} checks {checks} accepted {accepted}").ok()?;
    if cuts == 0 {
        return Some(());
    }
    let right = is_right(rt.alloc(), cuts)?;
    println!(rt; "cuts {cuts} right {right}").ok()
}

fn main(rt: HostRuntime) -> ExitCode {
    match run(&rt) {
        Some(()) => ExitCode::from(0),
        None => ExitCode::from(FAILED),
    }
}
