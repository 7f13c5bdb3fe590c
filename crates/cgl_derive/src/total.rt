ghost use Rattle.std.specs.Prelude.{◌≡◌, ◌^◌, ◌<◌, pos, ◌*ℤ◌, unsigned_abs, IfOk, OnOk, OnErr, true, false};
ghost use Rattle.cgl_derive.specs.Totals.{is_nothing, is_wide, nothing, plus};

use cgl_model::Wide;
use std::marker::Model;

/// A sum of products, and the sum of their magnitudes, which is below 2^127.
#[derive(Clone, Copy)]
pub struct Total {
    value: i128,
    magnitude: u128,
}

impl Model for Total {
    ghost use Rattle.cgl_derive.specs.Totals.{Amount, IsAmount};

    ghost Value = { Amount };

    ghost view = { λ t. record { value = t.value; magnitude = t.magnitude } };

    ghost invariant = { λ t. IsAmount (record { value = t.value; magnitude = t.magnitude }) };

    ghost inverse = { λ t. record { value = t.value; magnitude = t.magnitude } };
}

impl Total {
    /// No product yet.
    pub fn zero() -> Total
        ensures { result ≡ nothing }
    {
        Total {
            value: 0,
            magnitude: 0,
        }
    }

    /// The sum.
    pub fn value(self) -> i128
        ensures value { result ≡ self.value }
        ensures narrow { unsigned_abs self.value < 2 ^ 127 }
    {
        self.value
    }

    /// Whether each product so far was 0.
    pub fn is_zero(self) -> bool
        ensures { result ≡ is_nothing self }
    {
        self.magnitude == 0
    }

    /// With one product more.
    ///
    /// # Errors
    ///
    /// `Wide` exactly where the sum of the magnitudes reaches 2^127.
    pub fn plus(self, by: i128, number: i128) -> Result<Total, Wide>
        ensures sum { IfOk result (λ t. t ≡ plus by number self) }
        ensures narrow { OnOk result (is_wide (plus by number self) ≡ false) }
        ensures wide { OnErr result (is_wide (plus by number self) ≡ true) }
    {
        let product = by.unsigned_abs().checked_mul(number.unsigned_abs());
        let Some(product) = product else {
            return Err(Wide);
        };
        let Some(magnitude) = self.magnitude.checked_add(product) else {
            return Err(Wide);
        };
        if magnitude > i128::MAX as u128 {
            return Err(Wide);
        }
        Ok(Total {
            value: self.value + by * number,
            magnitude,
        })
    }
}

/// A product.
///
/// # Errors
///
/// `Wide` exactly where it reaches 2^127 in magnitude.
pub fn product(by: i128, number: i128) -> Result<i128, Wide>
    ensures value { IfOk result (λ r. r ≡ by *ℤ number) }
    ensures narrow { OnOk result (is_wide (plus by number nothing) ≡ false) }
    ensures wide { OnErr result (is_wide (plus by number nothing) ≡ true) }
{
    let total = Total::zero().plus(by, number)?;
    Ok(total.value())
}

/// Whether a product reaches 2^127 in magnitude.
pub fn is_wide_product(by: i128, number: i128) -> bool
    ensures { result ≡ is_wide (plus by number nothing) }
{
    product(by, number).is_err()
}
