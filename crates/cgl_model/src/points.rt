ghost use Rattle.std.specs.Prelude.{◌≡◌, pos, ◌<ℤ◌};

use crate::Seq;
use std::marker::Model;

/// A number for each column, over one denominator above 0.
#[derive(Drop)]
pub struct Point {
    p: Seq<i128>,
    d: i128,
}

impl Model for Point {
    ghost use Rattle.std.specs.Prelude.{pos, ◌<ℤ◌};
    ghost use Rattle.cgl_model.specs.Point.{Point as Numbers};

    ghost Value = { Numbers };

    ghost view = { λ it. record { p = it.p; d = it.d } };

    ghost invariant = { λ it. pos 0 <ℤ it.d };
}

impl Point {
    /// The point with these numerators, one for each column, over a denominator above 0.
    pub fn new(p: Seq<i128>, d: i128) -> Point
        requires { pos 0 <ℤ d }
        ensures numerators { result.p ≡ p }
        ensures denominator { result.d ≡ d }
    {
        Point { p, d }
    }

    /// The numerators, one for each column.
    pub fn numerators(&self) -> &[i128]
        ensures { result.now ≡ self.now.p }
    {
        self.p.as_slice()
    }

    /// The denominator of all the point's numbers, above 0.
    pub fn denominator(&self) -> i128
        ensures value { result ≡ self.now.d }
        ensures positive { pos 0 <ℤ self.now.d }
    {
        self.d
    }
}
