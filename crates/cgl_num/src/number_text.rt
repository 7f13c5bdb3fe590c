ghost use Rattle.std.specs.Prelude.{◌≡◌, ◌≢◌, pos, ◌+◌, ◌-◌, ◌%◌, ◌^◌, ◌<◌, ◌≤◌, ◌+ℤ◌, ◌-ℤ◌, ◌≤ℤ◌, negsuc, true, false, length, drop, ◌++◌, ◌∷◌, [], unsigned_abs, IfSome, IfNone, MatchResult, IsErrOf, ◌↔◌, Some, None};
ghost use Rattle.cgl_num.specs.declared.number_text.NumberFault;
ghost use Rattle.std.specs.List.{list_all, position_or_len, after_first};
ghost use Rattle.cgl_num.specs.NumberText.{Word, is_digit, is_digits, is_exponent_letter, is_point, is_negative, unsigned, natural, near, near_exponent, has_exponent_form, digits_in, is_number, number, limit, is_in_range, reaches, IsCounted, IsForm};

use crate::Dec;
use crate::decimal::{signed, with_sign};

/// Why a text gives no number.
#[derive(Clone, Copy, Debug, PartialEq, Eq)]
pub enum NumberFault {
    /// It is not of the form of a number.
    Form,
    /// It is a number beyond the limits.
    Range,
}

/// A bound, which is infinite from a magnitude of 10^20 on: `Plus` above 0, and `Minus` below.
#[derive(Clone, Copy, Debug, PartialEq, Eq)]
pub enum Limit {
    Finite(Dec),
    Plus,
    Minus,
}

/// What digits say. The value leaves out the zeros at their end, and is kept up to 24 digits;
/// the size counts from the first digit on that isn't 0.
#[derive(Clone, Copy)]
struct Digits {
    value: u128,
    zeros: u64,
    size: u64,
    ghost some: { 0 < size → zeros < size },
    ghost below: { size ≤ zeros + 24 → value < 10 ^ (size - zeros) },
    ghost normal: { 0 < size → size ≤ zeros + 24 → value % 10 ≢ 0 },
}

const KEPT: u64 = 24;

const SIZE_END: i128 = 36;

const INFINITE_FROM: u8 = 20;

const LEAST_SCALE: i128 = -30;

impl Digits {
    /// No digits.
    fn new() -> Digits
        ensures counted { IsCounted [] result.value result.zeros result.size }
        ensures zeros { result.zeros ≡ 0 }
        ensures size { result.size ≡ 0 }
    {
        Digits {
            value: 0,
            zeros: 0,
            size: 0,
        }
    }

    /// With one digit more, a number below 10.
    fn push(self, digit: u8) -> Digits
        requires digit { digit < 10 }
        requires zeros { self.zeros + 1 < 2 ^ 64 }
        requires size { self.size + 1 < 2 ^ 64 }
        ensures counted { (digits : Word) → IsCounted digits self.value self.zeros self.size
            → IsCounted (digits ++ (48 + digit) ∷ []) result.value result.zeros result.size }
        ensures zeros { result.zeros ≤ self.zeros + 1 }
        ensures size { result.size ≤ self.size + 1 }
    {
        if digit == 0 {
            return self.push_zero();
        }
        if self.size == 0 {
            return Digits {
                value: digit as u128,
                zeros: 0,
                size: 1,
            };
        }
        if self.size >= KEPT {
            return Digits {
                value: 0,
                zeros: 0,
                size: self.size + 1,
            };
        }
        Digits {
            value: self.value * 10u128.pow(self.zeros as u32 + 1) + digit as u128,
            zeros: 0,
            size: self.size + 1,
        }
    }

    fn push_zero(self) -> Digits
        requires zeros { self.zeros + 1 < 2 ^ 64 }
        requires size { self.size + 1 < 2 ^ 64 }
        ensures counted { (digits : Word) → IsCounted digits self.value self.zeros self.size
            → IsCounted (digits ++ 48 ∷ []) result.value result.zeros result.size }
        ensures zeros { result.zeros ≤ self.zeros + 1 }
        ensures size { result.size ≤ self.size + 1 }
    {
        let zeros = self.zeros + 1;
        if self.size == 0 {
            return Digits {
                value: 0,
                zeros,
                size: 0,
            };
        }
        Digits {
            value: self.value,
            zeros,
            size: self.size + 1,
        }
    }
}

/// What follows an optional sign.
fn unsigned(text: &[u8]) -> &[u8]
    ensures { result.now ≡ unsigned text.now }
{
    match text {
        [b'+' | b'-', rest @ ..] => rest,
        _ => text,
    }
}

fn is_negative(text: &[u8]) -> bool
    ensures { result ≡ is_negative text.now }
{
    matches!(text, [b'-', ..])
}

fn is_exponent_letter(byte: u8) -> bool
    ensures { result ≡ is_exponent_letter byte }
{
    byte == b'e' || byte == b'E' || byte == b'd' || byte == b'D'
}

/// The place of the exponent's letter, or the length where there is none.
fn letter_place(text: &[u8]) -> usize
    ensures place { result ≡ position_or_len is_exponent_letter text.now }
    ensures within { result ≤ length text.now }
{
    for (i, byte) in text.iter().enumerate() {
        if is_exponent_letter(*byte) {
            return i;
        }
    }
    text.len()
}

/// The place of the point, or the length where there is none.
fn point_place(text: &[u8]) -> usize
    ensures place { result ≡ position_or_len is_point text.now }
    ensures within { result ≤ length text.now }
{
    for (i, byte) in text.iter().enumerate() {
        if *byte == b'.' {
            return i;
        }
    }
    text.len()
}

/// What follows the byte at this place, or nothing.
fn behind(text: &[u8], place: usize) -> &[u8]
    ensures { result.now ≡ drop (place + 1) text.now }
{
    if place < text.len() {
        &text[place + 1..]
    } else {
        &text[text.len()..]
    }
}

const FAR: u128 = 1_000_000_000_000_000_000_000_000_000_000;

/// The natural number of one digit or more, or 10^30 where it is larger.
fn near_natural(text: &[u8]) -> Option<u128>
    ensures none { IfNone result (is_digits text.now ≡ false) }
    ensures some { IfSome result (λ n. (is_digits text.now ≡ true) × (n ≡ near (natural text.now))) }
{
    if text.is_empty() {
        return None;
    }
    let mut number = 0u128;
    'digits: for byte in text {
        if !is_digit(*byte) {
            return None;
        }
        number = (10 * number + (*byte - b'0') as u128).min(FAR);
    }
    Some(number)
}

fn is_digit(byte: u8) -> bool
    ensures { result ≡ is_digit byte }
{
    b'0' <= byte && byte <= b'9'
}

/// What the exponent behind the letter is, with a magnitude of at most 10^30, and 0 where there is none.
fn exponent(text: &[u8], place: usize) -> Option<i128>
    requires { place ≡ position_or_len is_exponent_letter text.now }
    ensures none { IfNone result (has_exponent_form text.now ≡ false) }
    ensures some { IfSome result (λ power. (has_exponent_form text.now ≡ true)
        × (power ≡ near_exponent (after_first is_exponent_letter text.now))) }
    ensures near { IfSome result (λ power. unsigned_abs power ≤ 10 ^ 30) }
{
    if place == text.len() {
        return Some(0);
    }
    let power = behind(text, place);
    let Some(magnitude) = near_natural(unsigned(power)) else {
        return None;
    };
    Some(signed(is_negative(power), magnitude))
}

/// These digits behind those that are counted already.
fn count(start: Digits, text: &[u8]) -> Option<Digits>
    requires zeros { start.zeros + length text.now < 2 ^ 64 }
    requires size { start.size + length text.now < 2 ^ 64 }
    ensures none { IfNone result (list_all is_digit text.now ≡ false) }
    ensures some { IfSome result (λ d. (before : Word) → IsCounted before start.value start.zeros start.size
        → IsCounted (before ++ text.now) d.value d.zeros d.size) }
    ensures room { IfSome result (λ d. (d.zeros ≤ start.zeros + length text.now) × (d.size ≤ start.size + length text.now)) }
{
    let mut counted = start;
    'digits: for byte in text {
        if !is_digit(*byte) {
            return None;
        }
        counted = counted.push(*byte - b'0');
    }
    Some(counted)
}

/// The digits before and after the point, of which there must be one.
fn count_around(text: &[u8], point: usize) -> Option<Digits>
    requires { point ≡ position_or_len is_point text.now }
    ensures none { IfNone result (is_digits (digits_in text.now) ≡ false) }
    ensures some { IfSome result (λ d. (is_digits (digits_in text.now) ≡ true) × IsCounted (digits_in text.now) d.value d.zeros d.size) }
    ensures short { IfSome result (λ _. length (digits_in text.now) < 2 ^ 64) }
{
    let decimals = behind(text, point);
    if point == 0 && decimals.is_empty() {
        return None;
    }
    let Some(whole) = count(Digits::new(), &text[..point]) else {
        return None;
    };
    count(whole, decimals)
}

/// A number in text: its digits with a sign, times ten to the scale.
#[derive(Clone, Copy)]
struct Parts {
    negative: bool,
    digits: Digits,
    scale: i128,
    ghost near: { unsigned_abs scale < 2 ^ 126 },
}

fn scale_of(power: i128, decimals: usize) -> i128
    requires { unsigned_abs power ≤ 10 ^ 30 }
    ensures value { result ≡ power -ℤ pos decimals }
    ensures near { unsigned_abs result < 2 ^ 126 }
{
    power - decimals as i128
}

impl Parts {
    /// Whether the magnitude is at least ten to this power.
    fn reaches(self, power: u8) -> bool
        ensures { (text : Word) → IsForm text self.negative self.digits.value self.digits.zeros self.digits.size self.scale
            → result ≡ reaches power text }
    {
        let above = sum(self.scale, self.digits.size);
        self.digits.size > 0 && (power as i128) < above
    }

    /// The number, or none where it is beyond the limits.
    fn decimal(self) -> Option<Dec>
        ensures { (text : Word) → IsForm text self.negative self.digits.value self.digits.zeros self.digits.size self.scale
            → result ≡ number text }
    {
        let digits = self.digits;
        if digits.size == 0 {
            return Dec::whole(0);
        }
        if digits.size - digits.zeros > KEPT {
            return None;
        }
        let above = sum(self.scale, digits.size);
        if above > SIZE_END {
            return None;
        }
        let e = sum(self.scale, digits.zeros);
        if e < LEAST_SCALE {
            return None;
        }
        Some(with_sign(self.negative, digits.value, narrow(e)))
    }
}

fn sum(scale: i128, count: u64) -> i128
    requires { unsigned_abs scale < 2 ^ 126 }
    ensures { result ≡ scale +ℤ pos count }
{
    scale + count as i128
}

fn narrow(e: i128) -> i16
    requires { (negsuc 29 ≤ℤ e) × (e ≤ℤ pos 36) }
    ensures { result ≡ e }
{
    e as i16
}

/// The parts of a number, or none where the text has another form.
fn parse(text: &[u8]) -> Option<Parts>
    ensures none { IfNone result (is_number text.now ≡ false) }
    ensures some { IfSome result (λ p. IsForm text.now p.negative p.digits.value p.digits.zeros p.digits.size p.scale) }
{
    let body = unsigned(text);
    let place = letter_place(body);
    let Some(power) = exponent(body, place) else {
        return None;
    };
    let mantissa = &body[..place];
    let point = point_place(mantissa);
    let Some(digits) = count_around(mantissa, point) else {
        return None;
    };
    let scale = scale_of(power, behind(mantissa, point).len());
    Some(Parts {
        negative: is_negative(text),
        digits,
        scale,
    })
}

/// Whether the text has the form of a number: an optional sign, digits with at most one point, and optionally
/// one of `e E d D` with an optional sign and digits.
pub fn is_number_text(text: &[u8]) -> bool
    ensures { result ≡ is_number text.now }
{
    parse(text).is_some()
}

impl Dec {
    /// The number that a text gives.
    ///
    /// # Errors
    ///
    /// `Form` exactly where the text is not a number, `Range` exactly where it is one beyond the limits of `Dec`.
    pub fn read(text: &[u8]) -> Result<Dec, NumberFault>
        ensures value { MatchResult result (λ d. number text.now ≡ Some d) (λ _. number text.now ≡ None) }
        ensures form { IsErrOf result NumberFault.Form ↔ (is_number text.now ≡ false) }
        ensures range { IsErrOf result NumberFault.Range ↔ ((is_number text.now ≡ true) × (is_in_range text.now ≡ false)) }
    {
        let Some(parts) = parse(text) else {
            return Err(NumberFault::Form);
        };
        match parts.decimal() {
            Some(number) => Ok(number),
            None => Err(NumberFault::Range),
        }
    }

    /// The bound that a text gives, which is infinite from a magnitude of 10^20 on.
    ///
    /// # Errors
    ///
    /// `Form` exactly where the text is not a number, `Range` exactly where it is one of a magnitude below 10^20 and
    /// beyond the limits of `Dec`.
    pub fn read_bound(text: &[u8]) -> Result<Limit, NumberFault>
        ensures value { MatchResult result (λ bound. limit text.now ≡ Some bound) (λ _. limit text.now ≡ None) }
        ensures form { IsErrOf result NumberFault.Form ↔ (is_number text.now ≡ false) }
        ensures range { IsErrOf result NumberFault.Range
            ↔ ((is_number text.now ≡ true) × ((reaches 20 text.now ≡ false) × (is_in_range text.now ≡ false))) }
    {
        let Some(parts) = parse(text) else {
            return Err(NumberFault::Form);
        };
        if parts.reaches(INFINITE_FROM) {
            return Ok(if parts.negative {
                Limit::Minus
            } else {
                Limit::Plus
            });
        }
        match parts.decimal() {
            Some(number) => Ok(Limit::Finite(number)),
            None => Err(NumberFault::Range),
        }
    }
}
