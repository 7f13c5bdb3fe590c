ghost use lib.IntN.{neg_ℤ};
ghost use Rattle.std.specs.Prelude.{◌≡◌, ◌↔◌, IsTrue, List, ℕ, ℤ, ◌∷◌, length, pos, ◌+◌, ◌*◌, ◌≤◌, ◌<◌, ◌^◌, ◌≤ℤ◌, nat_le, unsigned_abs, Some, if◌then◌else◌};
ghost use Rattle.cgl_knap.specs.Greatest.{HasRoom, IsGreatest, IsTable};
ghost use Rattle.cgl_model.specs.Rising.{IsRising};
ghost use Rattle.cgl_derive.specs.Derives.{coefficient};
ghost use Rattle.cgl_derive.specs.Knapsack.{coefficients, positive_part, positive_total, total_magnitude};
ghost use Rattle.cgl_derive.specs.KnapsackLists.{coefficients_at, sizes};
ghost use Rattle.cgl_check.specs.FirstFailure.{knap_failure, knapsack_failure};
ghost use Rattle.cgl_check.specs.Knapsacks.{leftover, small_capacity, values_of, weights_of};
ghost use Rattle.cgl_check.specs.LinearIneq.{ineq_of};
ghost use Rattle.cgl_check.specs.Room.{HasTable};
ghost use Rattle.cgl_check.specs.Tests.{has_signs, reaches, same_sign};
ghost use Rattle.cgl_check.specs.Walk.{AreEntered, meant_at};

use crate::form::{Linear, signed};
use crate::frames::Frame;
use crate::laws::knapsack_values;
use crate::reasons::{BAD_REF, KNAPSACK_FORM, KNAPSACK_VALUE};
use crate::scope::Scope;
use crate::walk::meant;
use cgl_derive::{Knap, are_binary, are_columns, coefficient_laws, coefficient_of, knapsacks};
use cgl_knap::{add_item, clear, tables};
use cgl_model::{Ineq, Model};

/// The most steps of a knapsack: its columns times its capacity and 2.
const MOST_STEPS: usize = 50_000_000;

/// Whether the magnitudes of an inequality's numbers together reach 2^127.
fn is_wide_total(terms: &[(u32, i128)], rhs: i128) -> bool
    ensures { result ≡ reaches (total_magnitude terms.now + unsigned_abs rhs) }
{
    let mut total = rhs.unsigned_abs();
    for term in terms {
        if total > i128::MAX as u128 {
            return true;
        }
        total += term.1.unsigned_abs();
    }
    total > i128::MAX as u128
}

fn positive_part(number: i128) -> i128
    ensures { result ≡ positive_part number }
{
    number.max(0)
}

/// The coefficients above 0 together.
fn positive_total(from: Linear) -> i128
    requires rising { IsRising from.terms.now }
    requires narrow { total_magnitude from.terms.now < 2 ^ 127 }
    ensures { result ≡ positive_total (coefficients (ineq_of from.entry).terms) }
{
    let mut total = 0;
    for term in from.terms {
        total += positive_part(signed(from.negative, term.1));
    }
    total
}

/// Whether so many columns and this capacity are within the limit.
fn is_within(columns: usize, capacity: usize) -> bool
    requires { capacity ≤ 50000000 }
    ensures { result ≡ nat_le (columns * (capacity + 2)) 50000000 }
{
    match columns.checked_mul(capacity + 2) {
        Some(steps) => steps <= MOST_STEPS,
        None => false,
    }
}

/// The capacity of a table for the literals of an inequality, where it is a knapsack within the limits.
pub fn small_capacity(from: Linear) -> Option<usize>
    requires { IsRising from.terms.now }
    ensures { result ≡ small_capacity (ineq_of from.entry) }
{
    if is_wide_total(from.terms, from.rhs) {
        return None;
    }
    let capacity = positive_total(from) - from.rhs;
    if capacity < 0 {
        return None;
    }
    if from.terms.is_empty() {
        return Some(0);
    }
    if capacity > MOST_STEPS as i128 {
        return None;
    }
    if !is_within(from.terms.len(), capacity as usize) {
        return None;
    }
    Some(capacity as usize)
}

fn same_sign(a: i128, u: i128) -> bool
    ensures { result ≡ same_sign a u }
{
    (a > 0 && u > 0) || (a < 0 && u < 0)
}

fn coefficient_in(from: Linear, column: u32) -> i128
    requires { IsRising from.terms.now }
    ensures { result ≡ coefficient column (ineq_of from.entry).terms }
{
    coefficient_laws();
    signed(from.negative, coefficient_of(from.terms, column))
}

/// Whether each coefficient of the claim has the sign of that of its column.
fn has_signs(from: Linear, claim: &[(u32, i128)]) -> bool
    requires { IsRising from.terms.now }
    ensures { result ≡ has_signs (ineq_of from.entry).terms claim.now }
{
    for term in claim {
        if !same_sign(coefficient_in(from, term.0), term.1) {
            return false;
        }
    }
    true
}

fn magnitude(number: i128) -> i128
    requires { unsigned_abs number < 2 ^ 127 }
    ensures { result ≡ pos (unsigned_abs number) }
{
    number.abs()
}

/// Makes the table one of a literal more.
fn add_literal(table: &mut [i128], weight: u128, value: i128)
    requires value { pos 0 ≤ℤ value }
    requires room { HasRoom value table.old }
    ensures { (weights : List ℕ) (values : List ℤ) → IsTable weights values table.old → IsTable (weight ∷ weights) (value ∷ values) table.new }
{
    if let Ok(weight) = u64::try_from(weight) {
        add_item(table, weight, value);
    }
}

/// Makes the table one of all literals, each with the magnitude of the claim's coefficient as its value.
fn fill(table: &mut [i128], from: Linear, claim: &[(u32, i128)])
    requires rising { IsRising from.terms.now }
    requires claim { IsRising claim.now }
    requires narrow { total_magnitude claim.now < 2 ^ 127 }
    ensures { IsTable (weights_of (ineq_of from.entry)) (sizes (coefficients_at (ineq_of from.entry).terms claim.now)) table.new }
{
    tables();
    clear(table);
    for i in (0..from.terms.len()).rev() {
        let value = magnitude(coefficient_of(claim, from.terms[i].0));
        add_literal(table, from.terms[i].1.unsigned_abs(), value);
    }
}

/// The greatest value of the literals within a capacity.
fn greatest(table: &mut Vec<i128>, capacity: usize, from: Linear, claim: &[(u32, i128)]) -> i128
    requires rising { IsRising from.terms.now }
    requires claim { IsRising claim.now }
    requires narrow { total_magnitude claim.now < 2 ^ 127 }
    requires places { capacity < length table.old.items }
    ensures value { IsGreatest (weights_of (ineq_of from.entry)) (sizes (coefficients_at (ineq_of from.entry).terms claim.now)) capacity result }
    ensures size { length table.new.items ≡ length table.old.items }
{
    let table = &mut table.as_mut_slice()[..capacity + 1];
    fill(table, from, claim);
    table[capacity]
}

/// What the literals may count for together.
fn leftover(from: Linear, claim: &Ineq) -> i128
    requires rising { IsRising from.terms.now }
    requires narrow { total_magnitude claim.now.terms + unsigned_abs claim.now.rhs < 2 ^ 127 }
    ensures { result ≡ leftover (ineq_of from.entry) claim.now }
{
    let mut total = 0;
    for term in from.terms {
        total += positive_part(coefficient_of(claim.terms.as_slice(), term.0));
    }
    total - claim.rhs
}

/// What a knapsack step from this inequality fails by.
fn knapsack_failure(m: &Model, from: Linear, table: &mut Vec<i128>, knap: &Knap) -> Option<u8>
    requires rising { IsRising from.terms.now }
    requires table { HasTable (length table.old.items) (Some (ineq_of from)) }
    ensures failure { result ≡ knapsack_failure m.now knap.now (Some (ineq_of from.entry)) }
    ensures size { length table.new.items ≡ length table.old.items }
{
    knapsacks();
    knapsack_values();
    let claim = knap.claim.terms.as_slice();
    if !are_binary(m, from.terms) {
        return Some(KNAPSACK_FORM);
    }
    let Some(capacity) = small_capacity(from) else {
        return Some(KNAPSACK_FORM);
    };
    if !has_signs(from, claim) {
        return Some(KNAPSACK_FORM);
    }
    if is_wide_total(claim, knap.claim.rhs) {
        return Some(KNAPSACK_FORM);
    }
    if greatest(table, capacity, from, claim) > leftover(from, &knap.claim) {
        return Some(KNAPSACK_VALUE);
    }
    None
}

/// What a knapsack step fails by.
pub fn knap_failure(
    scope: &Scope<'_>,
    frames: &[Frame],
    own: usize,
    table: &mut Vec<i128>,
    knap: &Knap,
) -> Option<u8>
    requires entered { AreEntered scope.now.steps.now frames.now }
    requires table { HasTable (length table.old.items) (meant_at scope.now frames.now own knap.now.from) }
    ensures failure { result ≡ knap_failure scope.now.model.now (meant_at scope.now frames.now own) knap.now }
    ensures size { length table.new.items ≡ length table.old.items }
{
    if !are_columns(scope.model, knap.claim.terms.as_slice()) {
        return Some(BAD_REF);
    }
    let Some(from) = meant(scope, frames, own, knap.from) else {
        return Some(BAD_REF);
    };
    knapsack_failure(scope.model, from, table, knap)
}
