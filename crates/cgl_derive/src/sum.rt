ghost use Rattle.std.specs.Prelude.{◌≡◌, ℕ, ◌<◌, ◌≤◌, ◌+◌, ◌^◌, pos, ◌<ℤ◌, ◌≤ℤ◌, ◌*ℤ◌, ◌↔◌, not, length, All, replicate, IsTrue, IfOk, OnOk, OnErr, true, false, if◌then◌else◌, vec_len};
ghost use Rattle.std.specs.List.{AllByRecursion, list_any};
ghost use Rattle.cgl_model.specs.Inequality.{AreColumnsBelow};
ghost use Rattle.cgl_model.specs.Rising.{IsRising};
ghost use Rattle.cgl_derive.specs.Derives.{coefficient};
ghost use Rattle.cgl_derive.specs.Totals.{Amount, AreTouched, AreTouchedWith, IsKept, IsTimes, IsZeroOutside, ProvesClaim, amount_at, is_among, is_wide, is_wide_claim, is_wide_form, is_wide_side, no_totals, nothing, plus, plus_columns, plus_form, plus_side};

use crate::coefficients::coefficient_of;
use crate::total::{Total, is_wide_product, product};
use cgl_model::{Ineq, Wide};
use cgl_num::Memory;
use std::alloc::Global;
use std::marker::Model;

/// A weighted sum of inequalities over the columns of a model, with the sums of the magnitudes, each below 2^127.
#[derive(Drop)]
pub struct Sum {
    columns: Vec<Total>,
    rhs: Total,
    /// The columns that were added to, within the capacity from the start: where it is `full`, they are not all there.
    touched: Vec<u32>,
    full: bool,
}

impl Model for Sum {
    ghost use Rattle.cgl_derive.specs.Totals.{IsKept, Totals};

    ghost Value = { Totals };

    ghost view = { λ s. record { columns = s.columns.items; rhs = s.rhs } };

    ghost invariant = { λ s. IsKept s.columns.items s.touched.items s.full };
}

/// Zero sums.
fn zeros(alloc: Global, count: usize) -> Result<Vec<Total>, Memory>
    ensures { IfOk result (λ v. v.items ≡ replicate count nothing) }
{
    let Ok(mut columns) = Vec::with_capacity(alloc, count) else {
        return Err(Memory);
    };
    for _i in 0..count {
        let Ok(()) = columns.push(Total::zero()) else {
            return Err(Memory);
        };
    }
    Ok(columns)
}

fn clear_all(columns: &mut [Total])
    ensures { columns.new ≡ replicate (length columns.old) nothing }
{
    for total in columns.iter_mut() {
        *total = Total::zero();
    }
}

fn clear_touched(columns: &mut [Total], touched: &[u32])
    ensures size { length columns.new ≡ length columns.old }
    ensures each { (j : ℕ) → amount_at columns.new j ≡ (if is_among j touched.now then nothing else amount_at columns.old j) }
{
    for column in touched {
        if (*column as usize) < columns.len() {
            columns[*column as usize] = Total::zero();
        }
    }
}

/// Whether no sum of magnitudes reaches 2^127 with a multiple of the terms more.
fn fits(columns: &[Total], terms: &[(u32, i128)], by: i128) -> bool
    requires { AreColumnsBelow (length columns.now) terms.now }
    ensures { result ≡ not (list_any (λ u. is_wide (plus by u.1 (amount_at columns.now u.0))) terms.now) }
{
    for term in terms {
        let Ok(_) = columns[term.0 as usize].plus(by, term.1) else {
            return false;
        };
    }
    true
}

/// Notes the columns of the terms that had no amount, and answers whether the list was given up.
fn touch(columns: &[Total], touched: &mut Vec<u32>, full: bool, terms: &[(u32, i128)]) -> bool
    requires columns { AreColumnsBelow (length columns.now) terms.now }
    requires touched { AreTouched columns.now touched.old.items full }
    ensures { AreTouchedWith columns.now terms.now touched.new.items result }
{
    let mut full = full;
    for term in terms {
        if columns[term.0 as usize].is_zero() {
            if touched.len() < touched.capacity() {
                touched.push_reserved(term.0);
            } else {
                full = true;
            }
        }
    }
    full
}

fn add_terms(columns: &mut [Total], terms: &[(u32, i128)], by: i128)
    requires columns { AreColumnsBelow (length columns.old) terms.now }
    requires rising { IsRising terms.now }
    requires narrow { list_any (λ u. is_wide (plus by u.1 (amount_at columns.old u.0))) terms.now ≡ false }
    ensures { columns.new ≡ plus_columns by terms.now 0 columns.old }
{
    for term in terms {
        let Ok(total) = columns[term.0 as usize].plus(by, term.1) else {
            continue;
        };
        columns[term.0 as usize] = total;
    }
}

fn is_times(columns: &[Total], term: (u32, i128), q: i128) -> bool
    requires { term.0 < length columns.now }
    ensures { IsTrue result ↔ IsTimes q columns.now term }
{
    let value = columns[term.0 as usize].value();
    let Ok(times) = product(q, term.1) else {
        return false;
    };
    value == times
}

/// Whether the value at each term's column is q times the coefficient.
fn are_times(columns: &[Total], terms: &[(u32, i128)], q: i128) -> bool
    requires { AreColumnsBelow (length columns.now) terms.now }
    ensures { IsTrue result ↔ AllByRecursion (IsTimes q columns.now) terms.now }
{
    for term in terms {
        if !is_times(columns, *term, q) {
            return false;
        }
    }
    true
}

fn has_wide(terms: &[(u32, i128)], q: i128) -> bool
    ensures { result ≡ list_any (λ u. is_wide (plus q u.1 nothing)) terms.now }
{
    terms.iter().any(|term| is_wide_product(q, term.1))
}

/// Whether the column has a term, or the value 0.
fn is_zero_outside(columns: &[Total], terms: &[(u32, i128)], column: u32) -> bool
    requires { IsRising terms.now }
    ensures { IsTrue result ↔ IsZeroOutside columns.now terms.now column }
{
    if columns.len() <= column as usize {
        return true;
    }
    if columns[column as usize].value() == 0 {
        return true;
    }
    coefficient_of(terms, column) != 0
}

fn are_zero_outside(columns: &[Total], terms: &[(u32, i128)], touched: &[u32]) -> bool
    requires { IsRising terms.now }
    ensures { IsTrue result ↔ All (IsZeroOutside columns.now terms.now) touched.now }
{
    touched
        .iter()
        .all(|column| is_zero_outside(columns, terms, *column))
}

/// The same for all columns.
fn all_zero_outside(columns: &[Total], terms: &[(u32, i128)]) -> bool
    requires size { length columns.now < 2 ^ 32 }
    requires rising { IsRising terms.now }
    ensures { IsTrue result ↔ ((j : ℕ) → j < length columns.now → IsZeroOutside columns.now terms.now j) }
{
    for column in 0..columns.len() {
        if !is_zero_outside(columns, terms, column as u32) {
            return false;
        }
    }
    true
}

/// Sets each column to 0.
fn clear_columns(columns: &mut [Total], touched: &[u32], full: bool)
    requires { AreTouched columns.old touched.now full }
    ensures { columns.new ≡ replicate (length columns.old) nothing }
{
    if full {
        clear_all(columns);
        return;
    }
    clear_touched(columns, touched);
}

/// Whether the values are q times the coefficients, at each column.
fn is_left(columns: &[Total], touched: &[u32], full: bool, terms: &[(u32, i128)], q: i128) -> bool
    requires kept { IsKept columns.now touched.now full }
    requires columns { AreColumnsBelow (length columns.now) terms.now }
    requires rising { IsRising terms.now }
    ensures { IsTrue result ↔ ((j : ℕ) → (amount_at columns.now j).value ≡ q *ℤ coefficient j terms.now) }
{
    if !are_times(columns, terms, q) {
        return false;
    }
    if full {
        all_zero_outside(columns, terms)
    } else {
        are_zero_outside(columns, terms, touched)
    }
}

fn is_at_most(a: i128, b: i128) -> bool
    ensures { IsTrue result ↔ (a ≤ℤ b) }
{
    a <= b
}

/// q times the claim's right side, where all its numbers times q fit.
fn times_claim(q: i128, claim: &Ineq) -> Result<i128, Wide>
    ensures value { IfOk result (λ r. r ≡ q *ℤ claim.now.rhs) }
    ensures narrow { OnOk result (is_wide_claim q claim.now ≡ false) }
    ensures wide { OnErr result (is_wide_claim q claim.now ≡ true) }
{
    if has_wide(claim.terms.as_slice(), q) {
        return Err(Wide);
    }
    product(q, claim.rhs)
}

/// Adds a multiple of the terms to the columns, and notes the columns. Answers whether the list was given up.
fn add_noted(
    columns: &mut Vec<Total>,
    touched: &mut Vec<u32>,
    full: bool,
    terms: &[(u32, i128)],
    by: i128,
) -> bool
    requires kept { IsKept columns.old.items touched.old.items full }
    requires columns { AreColumnsBelow (length columns.old.items) terms.now }
    requires rising { IsRising terms.now }
    requires narrow { list_any (λ u. is_wide (plus by u.1 (amount_at columns.old.items u.0))) terms.now ≡ false }
    ensures columns { columns.new.items ≡ plus_columns by terms.now 0 columns.old.items }
    ensures kept { IsKept columns.new.items touched.new.items result }
{
    let full = touch(columns.as_slice(), touched, full, terms);
    add_terms(columns, terms, by);
    full
}

impl Sum {
    /// The zero sum over this many columns, numbered from 0.
    ///
    /// # Errors
    ///
    /// `Memory` where memory is refused, and for no other cause.
    pub fn new(alloc: Global, cols: u32) -> Result<Sum, Memory>
        ensures { IfOk result (λ s. s ≡ no_totals cols) }
    {
        let columns = zeros(alloc, cols as usize)?;
        let Ok(touched) = Vec::with_capacity(alloc, cols as usize) else {
            return Err(Memory);
        };
        Ok(Sum {
            columns,
            rhs: Total::zero(),
            touched,
            full: false,
        })
    }

    /// Back to the zero sum. Takes no memory, and about as many steps as columns were added to.
    pub fn clear(&mut self)
        ensures { self.new ≡ no_totals (length self.old.columns) }
    {
        clear_columns(&mut self.columns, self.touched.as_slice(), self.full);
        self.touched.clear();
        self.full = false;
        self.rhs = Total::zero();
    }

    /// Adds a multiple of an inequality, whose columns are among the sum's. Takes no memory.
    ///
    /// # Errors
    ///
    /// `Wide` exactly where a column's or the right side's sum of magnitudes reaches 2^127; the sum is then unchanged.
    pub fn add(&mut self, side: &Ineq, by: i128) -> Result<(), Wide>
        requires { AreColumnsBelow (length self.old.columns) side.now.terms }
        ensures ok { OnOk result (self.new ≡ plus_side by side.now self.old) }
        ensures err { OnErr result (self.new ≡ self.old) }
        ensures narrow { OnOk result (is_wide_side by side.now self.old ≡ false) }
        ensures wide { OnErr result (is_wide_side by side.now self.old ≡ true) }
    {
        self.add_form(side.terms.as_slice(), by, side.rhs, by)
    }

    /// Adds `left` times the terms and `right` times the right side: an inequality whose terms are told negated has
    /// the opposite multiplier for them. The terms' columns rise and are among the sum's. Takes no memory.
    ///
    /// # Errors
    ///
    /// `Wide` exactly where a column's or the right side's sum of magnitudes reaches 2^127; the sum is then unchanged.
    pub fn add_form(
        &mut self,
        terms: &[(u32, i128)],
        left: i128,
        rhs: i128,
        right: i128,
    ) -> Result<(), Wide>
        requires columns { AreColumnsBelow (length self.old.columns) terms.now }
        requires rising { IsRising terms.now }
        ensures ok { OnOk result (self.new ≡ plus_form left terms.now right rhs self.old) }
        ensures err { OnErr result (self.new ≡ self.old) }
        ensures narrow { OnOk result (is_wide_form left terms.now right rhs self.old ≡ false) }
        ensures wide { OnErr result (is_wide_form left terms.now right rhs self.old ≡ true) }
    {
        let total = self.rhs.plus(right, rhs)?;
        if !fits(self.columns.as_slice(), terms, left) {
            return Err(Wide);
        }
        self.full = add_noted(&mut self.columns, &mut self.touched, self.full, terms, left);
        self.rhs = total;
        Ok(())
    }

    /// Whether the sum's left side is q times the claim's, and its right side at least q times the claim's. The
    /// claim's columns are among the sum's. Takes no memory, and about as many steps as the claim has terms and the sum
    /// has columns that were added to.
    ///
    /// # Errors
    ///
    /// `Wide` exactly where q times a number of the claim reaches 2^127.
    pub fn proves(&self, q: i128, claim: &Ineq) -> Result<bool, Wide>
        requires { AreColumnsBelow (length self.now.columns) claim.now.terms }
        ensures value { IfOk result (λ yes. IsTrue yes ↔ ProvesClaim q claim.now self.now) }
        ensures narrow { OnOk result (is_wide_claim q claim.now ≡ false) }
        ensures wide { OnErr result (is_wide_claim q claim.now ≡ true) }
    {
        let right = times_claim(q, claim)?;
        let terms = claim.terms.as_slice();
        if !is_left(
            self.columns.as_slice(),
            self.touched.as_slice(),
            self.full,
            terms,
            q,
        ) {
            return Ok(false);
        }
        if !is_at_most(right, self.rhs.value()) {
            return Ok(false);
        }
        Ok(true)
    }
}
