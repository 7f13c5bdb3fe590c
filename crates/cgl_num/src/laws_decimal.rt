ghost use Rattle.std.specs.Prelude.{◌≡◌, ℕ, ℤ, pos, ◌+◌, ◌^◌, ◌<◌, ◌≤◌, ◌*ℤ◌, unsigned_abs, ◌*◌, ◌+ℤ◌, ◌↔◌, ◌||◌, ◌==◌, true, Some, length};
ghost use Rattle.std.specs.List.{list_all};
ghost use Rattle.cgl_num.specs.Decimal.{Decimal, IsDecimal, decimal_of, decimal_text, places, scaled};
ghost use Rattle.cgl_num.specs.NumberText.{Word, digits, is_digit, is_number, limit, natural, number, reaches, scale, signed};
ghost use Rattle.cgl_num.specs.declared.number_text.Limit.TheVariants.{Finite};

/// Multiples of decimals by powers of ten, and decimals of whole numbers.
pub fn decimal_laws()
    ensures scaled { (d : Decimal) (k j : ℕ) → places d ≤ k → scaled k d *ℤ pos (10 ^ j) ≡ scaled (k + j) d }
    ensures places { (d : Decimal) → IsDecimal d → places d ≤ 30 }
    ensures whole_value { (n : ℤ) (d : Decimal) → decimal_of n ≡ Some d → scaled 0 d ≡ n }
    ensures whole_places { (n : ℤ) (d : Decimal) → decimal_of n ≡ Some d → places d ≡ 0 }
    ensures whole_valid { (n : ℤ) (d : Decimal) → decimal_of n ≡ Some d → IsDecimal d }
    ensures whole_all { (d : Decimal) → IsDecimal d → places d ≡ 0 → decimal_of (scaled 0 d) ≡ Some d }
{}

/// What the texts of numbers and bounds give: the value is that of all digits times a power of ten.
pub fn number_laws()
    ensures number_value { (text : Word) (d : Decimal) (k j : ℕ) → number text ≡ Some d → scale text +ℤ pos k ≡ pos j
        → scaled k d ≡ signed text (natural (digits text)) *ℤ pos (10 ^ j) }
    ensures reach { (text : Word) (t k j : ℕ) → is_number text ≡ true → scale text +ℤ pos k ≡ pos j
        → (reaches t text ≡ true) ↔ (10 ^ (t + k) ≤ natural (digits text) * 10 ^ j) }
    ensures number_valid { (text : Word) (d : Decimal) → number text ≡ Some d → IsDecimal d }
    ensures bound_valid { (text : Word) (d : Decimal) → limit text ≡ Some (Finite d) → IsDecimal d }
    ensures bound_number { (text : Word) (d : Decimal) → limit text ≡ Some (Finite d) → number text ≡ Some d }
    ensures bound_small { (text : Word) (d : Decimal) (k : ℕ) → limit text ≡ Some (Finite d) → places d ≤ k
        → unsigned_abs (scaled k d) < 10 ^ (20 + k) }
{}

/// The text of a decimal is read back as the decimal.
pub fn read_back_laws()
    ensures number { (d : Decimal) → IsDecimal d → number (decimal_text d) ≡ Some d }
    ensures bound { (d : Decimal) → IsDecimal d → unsigned_abs (scaled 30 d) < 10 ^ 50 → limit (decimal_text d) ≡ Some (Finite d) }
    ensures length { (d : Decimal) → IsDecimal d → length (decimal_text d) ≤ 48 }
    ensures bytes { (d : Decimal) → IsDecimal d → list_all (λ b. is_digit b || (b == 45 || b == 46)) (decimal_text d) ≡ true }
    ensures some { (d : Decimal) → IsDecimal d → 0 < length (decimal_text d) }
{}
