ghost use Rattle.std.specs.Prelude.{◌≡◌, ◌≤◌, ◌<◌, ◌^◌, ◌∷◌, unsigned_abs, false, map, option_map, option_to_list, pos, true, IfErr, IfOk};
ghost use Rattle.std.specs.List.{All, list_any};
ghost use Rattle.std.specs.Option.{IfSome};
ghost use Rattle.cgl_num.specs.Decimal.{places, scaled};
ghost use Rattle.cgl_num.specs.Gcd.{gcd_of};
ghost use Rattle.cgl_model.specs.IntegerForm.{is_wide_number, row_numbers, scaled_row, scaled_term};

use crate::scaling::scale;
use crate::{Row, Seq};
use cgl_num::{Dec, gcd};
use std::alloc::Global;

/// A row's numbers as whole numbers: its coefficients, its right side and its range.
#[derive(Drop)]
pub struct RowNumbers {
    pub coeffs: Seq<(u32, i128)>,
    pub rhs: i128,
    pub range: Option<i128>,
}

/// Why a row has no whole numbers: one of them reaches 2^100, or want of memory.
#[derive(Clone, Copy)]
pub enum Refusal {
    Wide,
    Memory,
}

fn scale_entries(alloc: Global, k: u32, entries: &[(u32, Dec)]) -> Result<Seq<(u32, i128)>, Refusal>
    requires within { k ≤ 30 }
    requires whole { All (λ e. places e.1 ≤ k) entries.now }
    ensures value { IfOk result (λ coeffs. coeffs ≡ map (scaled_term k) entries.now) }
    ensures narrow { IfOk result (λ coeffs. list_any is_wide_number (map (λ t. t.1) coeffs) ≡ false) }
    ensures wide { IfErr result (λ e. e ≡ Refusal.Wide → list_any is_wide_number (map (λ t. t.1) (map (scaled_term k) entries.now)) ≡ true) }
{
    let mut coeffs = Seq::new(alloc);
    for entry in entries {
        let Some(coefficient) = scale(k, entry.1) else {
            return Err(Refusal::Wide);
        };
        let Ok(()) = coeffs.push((entry.0, coefficient)) else {
            return Err(Refusal::Memory);
        };
    }
    Ok(coeffs)
}

fn scale_range(k: u32, range: Option<Dec>) -> Result<Option<i128>, Refusal>
    requires within { k ≤ 30 }
    requires whole { IfSome range (λ d. places d ≤ k) }
    ensures value { IfOk result (λ r. r ≡ option_map (scaled k) range) }
    ensures narrow { IfOk result (λ r. list_any is_wide_number (option_to_list r) ≡ false) }
    ensures wide { IfErr result (λ e. list_any is_wide_number (option_to_list (option_map (scaled k) range)) ≡ true) }
{
    let Some(range) = range else {
        return Ok(None);
    };
    let Some(range) = scale(k, range) else {
        return Err(Refusal::Wide);
    };
    Ok(Some(range))
}

/// 10^k times a row's numbers.
pub fn scale_row(
    alloc: Global,
    k: u32,
    entries: &[(u32, Dec)],
    row: &Row,
) -> Result<RowNumbers, Refusal>
    requires within { k ≤ 30 }
    requires entries { All (λ e. places e.1 ≤ k) entries.now }
    requires rhs { places row.now.rhs ≤ k }
    requires range { IfSome row.now.range (λ d. places d ≤ k) }
    ensures value { IfOk result (λ n. n ≡ scaled_row k entries.now row.now) }
    ensures narrow { IfOk result (λ n. list_any is_wide_number (row_numbers n) ≡ false) }
    ensures wide { IfErr result (λ e. e ≡ Refusal.Wide → list_any is_wide_number (row_numbers (scaled_row k entries.now row.now)) ≡ true) }
{
    let Some(rhs) = scale(k, row.rhs) else {
        return Err(Refusal::Wide);
    };
    let range = scale_range(k, row.range)?;
    let coeffs = scale_entries(alloc, k, entries)?;
    Ok(RowNumbers { coeffs, rhs, range })
}

/// The divisor of a right side and a range.
fn divisor_of_sides(rhs: i128, range: Option<i128>) -> i128
    requires rhs { unsigned_abs rhs < 2 ^ 100 }
    requires range { list_any is_wide_number (option_to_list range) ≡ false }
    ensures { result ≡ pos (gcd_of (rhs ∷ option_to_list range)) }
{
    let Some(range) = range else {
        return gcd(rhs, 0);
    };
    gcd(rhs, gcd(range, 0))
}

impl RowNumbers {
    /// The greatest common divisor of all; 0 where all are 0.
    pub fn divisor(&self) -> i128
        requires { list_any is_wide_number (row_numbers self.now) ≡ false }
        ensures { result ≡ pos (gcd_of (row_numbers self.now)) }
    {
        let coeffs = self.coeffs.as_slice();
        let mut divisor = divisor_of_sides(self.rhs, self.range);
        let mut i = coeffs.len();
        while i > 0 {
            i -= 1;
            divisor = gcd(coeffs[i].1, divisor);
        }
        divisor
    }
}
