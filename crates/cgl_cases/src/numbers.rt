//! Cases of fractions and decimals.

use cgl_num::{Dec, Frac, gcd, is_number_text};

/// The fraction of a word `NUM/DEN`.
pub fn fraction(word: &str) -> Option<Frac> {
    let (num, den) = word.split_once('/')?;
    let num = num.parse::<i128>().ok()?;
    let den = den.parse::<i128>().ok()?;
    if num == i128::MIN || den <= 0 {
        return None;
    }
    Some(Frac::new(num, den))
}

/// Tells a fraction in lowest terms, its floor and what is above it.
pub fn tell_fraction(rt: &impl Print, word: &str) -> Option<()> {
    let f = fraction(word)?;
    let mut digits = [0; 80];
    let length = f.digits(&mut digits);
    let text = digits[..length].escape_ascii();
    println!(rt; "  {text} = {} + {:?}", f.floor(), f.fract()).ok()
}

/// Tells the sum of two fractions, their difference, product and quotient, their order by `compare` and by `cmp`, and
/// the gcd of their numerators.
pub fn tell_sums(rt: &impl Print, words: &str) -> Option<()> {
    let (a, b) = words.split_once(' ')?;
    let a = fraction(a)?;
    let b = fraction(b)?;
    println!(rt; "  {:?}\n  {:?}\n  {:?}", a.add(b), a.sub(b), a.mul(b)).ok()?;
    if b.num() != 0 {
        println!(rt; "  {:?}", a.div(b)).ok()?;
    }
    let divisor = gcd(a.num(), b.num());
    println!(rt; "  {:?} {:?} gcd {divisor}", a.compare(b), a.cmp(&b)).ok()
}

fn tell_decimal(rt: &impl Print, number: Dec) -> Option<()> {
    let mut digits = [0; 48];
    let length = number.digits(&mut digits);
    let text = digits[..length].escape_ascii();
    println!(rt; "  {text} = {} e{}", number.m(), number.e()).ok()
}

/// Tells whether a text is of the form of a number, what it is as a bound, what it is as an integer, where it has
/// digits alone behind its sign, and what it is as a number.
pub fn tell_number(rt: &impl Print, text: &str) -> Option<()> {
    let bytes = text.as_bytes();
    println!(rt; "  {} {:?}", is_number_text(bytes), Dec::read_bound(bytes)).ok()?;
    if let Ok(integer) = text.parse::<i128>() {
        println!(rt; "  as an integer {:?}", Dec::whole(integer)).ok()?;
    }
    match Dec::read(bytes) {
        Ok(number) => tell_decimal(rt, number),
        Err(fault) => println!(rt; "  {fault:?}").ok(),
    }
}
