ghost use Rattle.std.specs.Prelude.{◌≡◌, ℕ, ◌<◌, ◌≤◌, ◌*◌, ◌%◌, ◌^◌, ◌≢◌, pos, negsuc, neg_ℤ, cond, ◌≤ℤ◌, ◌+◌, length, take, ◌++◌, decimal, replicate, unsigned_abs};
ghost use Rattle.std.specs.Int.Signed.{lt_z};
ghost use Rattle.cgl_num.specs.Decimal.{IsDecimal, decimal_of, decimal_text, magnitude_text, minus, padded, zero_decimal};

use itoa::Buffer;
use std::fmt;
use std::marker::Model;

const MANTISSA_END: u128 = 1_000_000_000_000_000_000_000_000;

const SIZE_END: u128 = 1_000_000_000_000_000_000_000_000_000_000_000_000;

/// How many values a word of 64 bits has.
const WORD: u128 = 1 << 64;

/// The number `m * 10^e`, where m is not divisible by 10, or both are 0.
/// The magnitude of m is below 10^24, that of the number is below 10^36, and e is at least -30.
///
/// It takes 16 bytes: m is its sign and its magnitude `high * 2^64 + low`.
#[derive(Clone, Copy)]
pub struct Dec {
    low: u64,
    high: u32,
    e: i16,
    negative: bool,
}

const _: () = prove!(size_of::<Dec>() == 16);

impl Model for Dec {
    ghost use Rattle.std.specs.Prelude.{◌%◌, ◌/◌, ◌^◌, pos, unsigned_abs};
    ghost use Rattle.std.specs.Int.Signed.{lt_z};
    ghost use Rattle.cgl_num.specs.Decimal.{Decimal};
    ghost use Rattle.cgl_num.specs.DecimalWords.{mantissa, IsPacked, low_back, high_back, sign_back};

    ghost Value = { Decimal };

    ghost view = { λ d. record { m = mantissa d.negative d.high d.low; e = d.e } };

    ghost invariant = { λ d. IsPacked d.negative d.high d.low d.e };

    ghost inverse = { λ d. record {
      low = unsigned_abs d.m % 2 ^ 64;
      high = unsigned_abs d.m / 2 ^ 64;
      e = d.e;
      negative = lt_z d.m (pos 0);
    } };

    ghost inverse_ok = { λ d packed i. record {
      low = low_back d.negative d.high d.low packed.word i;
      high = high_back d.negative d.high d.low packed.word i;
      e = d.e;
      negative = sign_back d.negative d.high d.low packed.sign i;
    } };
}

impl fmt::Debug for Dec {
    /// Writes m and e.
    fn fmt<W: fmt::Write>(&self, f: &mut fmt::Formatter<W>) -> fmt::Result {
        f.debug_struct("Dec")
            .field("m", &self.m())
            .field("e", &self.e())
            .finish()
    }
}

impl PartialEq for Dec {
    ghost use Rattle.std.specs.Cmp.{partial_equiv_from_equiv};
    ghost use Rattle.cgl_num.specs.DecimalEquality.{decimal_eq, decimal_eq_equiv};

    ghost eq = { decimal_eq };

    ghost laws = { partial_equiv_from_equiv decimal_eq_equiv };

    fn eq(&self, other: &Dec) -> bool {
        self.m() == other.m() && self.e() == other.e()
    }
}

impl Eq for Dec {
    ghost use Rattle.cgl_num.specs.DecimalEquality.{decimal_eq_equiv};

    ghost laws = { decimal_eq_equiv };
}

/// The number above 0 without the zeros at its end, and how many these are.
fn without_zeros(number: u128) -> (u128, u8)
    requires positive { 0 < number }
    requires size { number < 10 ^ 36 }
    ensures value { result.0 * 10 ^ result.1 ≡ number }
    ensures normal { result.0 % 10 ≢ 0 }
{
    let mut rest = number;
    let mut zeros = 0;
    while rest % 10 == 0 {
        rest /= 10;
        zeros += 1;
    }
    (rest, zeros)
}

/// A magnitude with a sign.
pub(crate) fn signed(negative: bool, magnitude: u128) -> i128
    requires { magnitude < 2 ^ 126 }
    ensures { result ≡ cond negative (neg_ℤ (pos magnitude)) (pos magnitude) }
{
    let number = magnitude as i128;
    if negative { -number } else { number }
}

/// A number above 0 with this sign.
pub(crate) fn with_sign(negative: bool, m: u128, e: i16) -> Dec
    requires normal { m % 10 ≢ 0 }
    requires digits { m < 10 ^ 24 }
    requires scale { negsuc 29 ≤ℤ e }
    requires size { (k : ℕ) → e ≡ pos k → m * 10 ^ k < 10 ^ 36 }
    ensures { result ≡ record { m = cond negative (neg_ℤ (pos m)) (pos m); e = e } }
{
    Dec {
        low: (m % WORD) as u64,
        high: (m / WORD) as u32,
        e,
        negative,
    }
}

/// Writes a piece behind the first `at` bytes, and gives the length of all.
fn put(out: &mut [u8; 48], at: usize, piece: &[u8]) -> usize
    requires { at + length piece.now ≤ 48 }
    ensures end { result ≡ at + length piece.now }
    ensures text { take result out.new ≡ take at out.old ++ piece.now }
{
    let end = at + piece.len();
    out[at..end].copy_from_slice(piece);
    end
}

fn put_sign(out: &mut [u8; 48], negative: bool) -> usize
    ensures within { result ≤ 1 }
    ensures text { take result out.new ≡ minus negative }
{
    if negative { put(out, 0, b"-") } else { 0 }
}

fn put_number(out: &mut [u8; 48], at: usize, number: u128) -> usize
    requires { at + length (decimal number) ≤ 48 }
    ensures end { result ≡ at + length (decimal number) }
    ensures text { take result out.new ≡ take at out.old ++ decimal number }
{
    put(out, at, Buffer::new().format(number).as_bytes())
}

fn put_zeros(out: &mut [u8; 48], at: usize, k: usize) -> usize
    requires within { k ≤ 30 }
    requires room { at + k ≤ 48 }
    ensures end { result ≡ at + k }
    ensures text { take result out.new ≡ take at out.old ++ replicate k 48 }
{
    let zeros = [b'0'; 30];
    let piece = &zeros[..k];
    put(out, at, piece)
}

/// Writes zeros and then the number, k digits in all.
fn put_padded(out: &mut [u8; 48], at: usize, k: usize, number: u128) -> usize
    requires size { number < 10 ^ k }
    requires places { (0 < k) × (k ≤ 30) }
    requires room { at + k ≤ 48 }
    ensures end { result ≡ at + k }
    ensures text { take result out.new ≡ take at out.old ++ padded k number }
{
    let mut buffer = Buffer::new();
    let text = buffer.format(number).as_bytes();
    let end = put_zeros(out, at, k - text.len());
    put(out, end, text)
}

/// Writes m with its last k digits behind a point.
fn put_decimals(out: &mut [u8; 48], at: usize, m: u128, k: usize) -> usize
    requires size { m < 10 ^ 24 }
    requires places { (0 < k) × (k ≤ 30) }
    requires room { at ≤ 1 }
    ensures within { result ≤ 48 }
    ensures text { take result out.new ≡ take at out.old ++ magnitude_text m (neg_ℤ (pos k)) }
{
    let power = 10u128.pow(k as u32);
    let end = put_number(out, at, m / power);
    let end = put(out, end, b".");
    put_padded(out, end, k, m % power)
}

/// The exponent of the greatest power of ten that is not above the number.
fn greatest_power(number: u128) -> u32
    requires { 0 < number }
    ensures from { 10 ^ result ≤ number }
    ensures below { number < 10 * 10 ^ result }
    ensures bound { result < 39 }
{
    if number <= u64::MAX as u128 {
        (number as u64).ilog10()
    } else {
        number.ilog10()
    }
}

/// How many digits the number has; 0 has one.
fn digit_count(number: u128) -> usize
    requires { number < 10 ^ 24 }
    ensures count { result ≡ length (decimal number) }
    ensures few { result ≤ 24 }
{
    if number == 0 {
        return 1;
    }
    greatest_power(number) as usize + 1
}

fn sign_len(negative: bool) -> usize
    ensures len { result ≡ length (minus negative) }
    ensures few { result ≤ 1 }
{
    if negative { 1 } else { 0 }
}

impl Dec {
    /// The magnitude of m.
    fn magnitude(self) -> u128
        ensures value { result ≡ unsigned_abs self.m }
        ensures valid { IsDecimal self }
    {
        self.high as u128 * WORD + self.low as u128
    }

    fn is_negative(self) -> bool
        ensures { result ≡ lt_z self.m (pos 0) }
    {
        self.negative
    }

    /// m of `m * 10^e`, with the number's sign.
    pub fn m(self) -> i128
        ensures value { result ≡ self.m }
        ensures valid { IsDecimal self }
    {
        signed(self.is_negative(), self.magnitude())
    }

    /// e of `m * 10^e`, from -30 to 35.
    pub fn e(self) -> i16
        ensures value { result ≡ self.e }
        ensures valid { IsDecimal self }
    {
        self.e
    }

    /// The whole number n; `None` exactly where its magnitude is 10^36 or more, or 10^24 or more once the zeros at its
    /// end are left out.
    pub fn whole(n: i128) -> Option<Dec>
        ensures { result ≡ decimal_of n }
    {
        if n == 0 {
            return Some(Dec::default());
        }
        let magnitude = n.unsigned_abs();
        if magnitude >= SIZE_END {
            return None;
        }
        let (m, zeros) = without_zeros(magnitude);
        if m >= MANTISSA_END {
            return None;
        }
        Some(with_sign(n < 0, m, zeros as i16))
    }

    /// Writes the number with all its digits, with a point only where e is below 0, and `-` only below 0. Gives the
    /// length of the text in bytes, at most 48.
    pub fn digits(self, out: &mut [u8; 48]) -> usize
        ensures within { result ≤ 48 }
        ensures text { take result out.new ≡ decimal_text self }
    {
        let m = self.magnitude();
        let e = self.e();
        let at = put_sign(out, self.is_negative());
        if e < 0 {
            put_decimals(out, at, m, e.unsigned_abs() as usize)
        } else {
            put_number(out, at, m * 10u128.pow(e as u32))
        }
    }

    /// The length in bytes of what `digits` writes, without writing it.
    pub fn text_len(self) -> usize
        ensures { result ≡ length (decimal_text self) }
    {
        let sign = sign_len(self.is_negative());
        let count = digit_count(self.magnitude());
        let e = self.e();
        let scale = e.unsigned_abs() as usize;
        if e < 0 {
            sign + (count.max(scale + 1) + 1)
        } else {
            sign + (count + scale)
        }
    }
}

impl Default for Dec {
    /// The number 0.
    fn default() -> Dec
        ensures { result ≡ zero_decimal }
    {
        Dec {
            low: 0,
            high: 0,
            e: 0,
            negative: false,
        }
    }
}
