ghost use Rattle.std.specs.Prelude.{◌≡◌, [], ◌∷◌, ◌++◌, IfOk, OnOk, OnErr};
ghost use Rattle.cgl_model.specs.Rising.{IsAboveAll, IsCoefficient, IsRising};

use cgl_num::Memory;
use smallvec::SmallVec;
use std::alloc::Global;
use std::marker::Model;

/// A sum of magnitudes or a product does not fit.
#[derive(Clone, Copy, Debug, PartialEq, Eq)]
pub struct Wide;

/// Columns, by their numbers from 0 and rising, with coefficients that are neither 0 nor the least number.
#[derive(Drop)]
pub struct Terms {
    items: SmallVec<(u32, i128), 4>,
}

impl Model for Terms {
    ghost use Rattle.std.specs.Prelude.{List, ℕ, ℤ};
    ghost use Rattle.cgl_model.specs.Rising.{IsRising};

    ghost Value = { List (ℕ × ℤ) };

    ghost view = { λ it. it.items.items };

    ghost invariant = { λ it. IsRising it.items.items };
}

impl Terms {
    /// The empty list, which takes no memory.
    pub fn new(alloc: Global) -> Terms
        ensures { result ≡ [] }
    {
        Terms {
            items: SmallVec::new(alloc),
        }
    }

    /// The terms as pairs of a column and its coefficient.
    pub fn as_slice(&self) -> &[(u32, i128)]
        ensures value { result.now ≡ self.now }
        ensures rising { IsRising self.now }
    {
        self.items.as_slice()
    }

    /// A copy of the list.
    ///
    /// # Errors
    ///
    /// `Memory` where memory for the copy is refused.
    pub fn copy(&self, alloc: Global) -> Result<Terms, Memory>
        ensures { IfOk result (λ copy. copy ≡ self.now) }
    {
        let Ok(items) = SmallVec::from_slice(alloc, self.items.as_slice()) else {
            return Err(Memory);
        };
        Ok(Terms { items })
    }

    /// Appends a term, a column and its coefficient. The column is above all that are there, and the coefficient is
    /// neither 0 nor the least number.
    ///
    /// # Errors
    ///
    /// `Memory` where memory is refused; the list is then as it was.
    #[tactic(auto, using(crate::specs::Rising::rising_push))]
    pub fn push(&mut self, item: (u32, i128)) -> Result<(), Memory>
        requires column { IsAboveAll self.old item.0 }
        requires coefficient { IsCoefficient item.1 }
        ensures ok { OnOk result (self.new ≡ self.old ++ item ∷ []) }
        ensures err { OnErr result (self.new ≡ self.old) }
    {
        let Ok(()) = self.items.push(item) else {
            return Err(Memory);
        };
        Ok(())
    }
}

/// An inequality in whole numbers: the sum of the terms is at least the right side.
#[derive(Drop)]
pub struct Ineq {
    pub terms: Terms,
    pub rhs: i128,
}
