//! Laws that crates above rest on.

ghost use Rattle.std.specs.Prelude.{◌≡◌, ℕ, ℤ, pos, negsuc, ◌*ℤ◌, ◌<ℤ◌, ◌<◌, ◌*◌, ◌/◌, ◌^◌, ◌↔◌, unsigned_abs, List, [], ◌∷◌};
ghost use Rattle.std.specs.Int.{IsGcd, ◌∣◌};
ghost use Rattle.std.specs.List.{All};
ghost use Rattle.cgl_num.specs.Gcd.{gcd, gcd_of};
ghost use Rattle.cgl_num.specs.Fraction.{Fraction, IsLowest, lowest};
ghost use Rattle.cgl_num.specs.FractionArithmetic.{IsFloor, fraction_cmp, fraction_order};

/// What the greatest common divisor of two numbers, and of a list, is.
pub fn divisors()
    ensures two { (a b : ℕ) → IsGcd a b (gcd a b) }
    ensures none { (a b : ℕ) → gcd a b ≡ 0 → (a ≡ 0) × (b ≡ 0) }
    ensures each { (zs : List ℤ) → All (λ z. gcd_of zs ∣ unsigned_abs z) zs }
    ensures greatest { (zs : List ℤ) (d : ℕ) → All (λ z. d ∣ unsigned_abs z) zs → d ∣ gcd_of zs }
    ensures zeros { (zs : List ℤ) → gcd_of zs ≡ 0 → All (λ z. z ≡ pos 0) zs }
{}

/// What a common factor, and the want of one, does.
pub fn factors()
    ensures multiple { (a b g c : ℕ) → IsGcd a b g → IsGcd (a * c) (b * c) (g * c) }
    ensures other { (a b c : ℕ) → gcd a b ≡ 1 → a ∣ b * c → a ∣ c }
    ensures quotients { (a b : ℕ) → 0 < gcd a b → gcd (a / gcd a b) (b / gcd a b) ≡ 1 }
{}

/// What the lowest terms of a fraction are.
pub fn lowest_terms()
    ensures value { (num den : ℤ) → (lowest num den).num *ℤ den ≡ num *ℤ (lowest num den).den }
    ensures lowest { (num den : ℤ) → unsigned_abs num < 2 ^ 127 → unsigned_abs den < 2 ^ 127 → pos 0 <ℤ den → IsLowest (lowest num den) }
    ensures above { (num den : ℤ) → (pos 0 <ℤ num) ↔ (pos 0 <ℤ (lowest num den).num) }
    ensures zero { (num den : ℤ) → (num ≡ pos 0) ↔ ((lowest num den).num ≡ pos 0) }
    ensures one { (f : Fraction) (num den : ℤ) → IsLowest f → pos 0 <ℤ den → f.num *ℤ den ≡ num *ℤ f.den → f ≡ lowest num den }
{}

/// What `cmp` computes is the order of the rational numbers.
pub fn rational_order()
    ensures rationals { (f h : Fraction) → IsLowest f → IsLowest h → fraction_order f h ≡ fraction_cmp f h }
    ensures floor { (f : Fraction) (n m : ℤ) → pos 0 <ℤ f.den → IsFloor f n → IsFloor f m → n ≡ m }
{}

/// Known values.
#[tactic(auto, unfolding(crate::specs::Gcd::gcd, crate::specs::Gcd::gcd_of, crate::specs::Fraction::lowest))]
pub fn known_fractions()
    ensures gcd { gcd 12 18 ≡ 6 }
    ensures gcd_of { gcd_of (pos 12 ∷ negsuc 17 ∷ pos 8 ∷ []) ≡ 2 }
    ensures lowest { lowest (negsuc 5) (pos 4) ≡ record { num = negsuc 2; den = pos 2 } }
    ensures whole { lowest (pos 0) (pos 5) ≡ record { num = pos 0; den = pos 1 } }
{}
