ghost use Rattle.std.specs.Prelude.{◌≡◌, ℕ, ◌<◌, ◌≤◌, length, slice_index_or, ℤ};
ghost use Rattle.cgl_model.specs.Inequality.{Term};
ghost use Rattle.cgl_model.specs.Rising.{IsRising};
ghost use Rattle.cgl_derive.specs.Derives.{coefficient};

/// How many terms stand before this column.
fn terms_before(terms: &[(u32, i128)], column: u32) -> usize
    requires { IsRising terms.now }
    ensures within { result ≤ length terms.now }
    ensures before { (k : ℕ) (d : Term) → k < result → (slice_index_or terms.now k d).0 < column }
    ensures after { (k : ℕ) (d : Term) → result ≤ k → k < length terms.now → column ≤ (slice_index_or terms.now k d).0 }
{
    let mut low = 0;
    let mut high = terms.len();
    while low < high {
        let middle = low + (high - low) / 2;
        if terms[middle].0 < column {
            low = middle + 1;
        } else {
            high = middle;
        }
    }
    low
}

/// The coefficient of a column in terms whose columns rise, 0 where no term has it. Takes about as many steps as the
/// number of terms has binary digits.
pub fn coefficient_of(terms: &[(u32, i128)], column: u32) -> i128
    requires { IsRising terms.now }
    ensures { result ≡ coefficient column terms.now }
{
    let place = terms_before(terms, column);
    if place == terms.len() {
        return 0;
    }
    let term = terms[place];
    if term.0 == column { term.1 } else { 0 }
}
