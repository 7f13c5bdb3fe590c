ghost use Rattle.std.specs.Prelude.{◌≡◌, pos, ◌<◌, ◌^◌, unsigned_abs};
ghost use Rattle.cgl_num.specs.Gcd.{gcd as greatest};

/// The greatest common divisor by Euclid's steps.
fn common(mut a: u128, mut b: u128) -> u128
    ensures { result ≡ greatest a b }
{
    while b != 0 {
        let rest = a % b;
        a = b;
        b = rest;
    }
    a
}

/// The greatest common divisor of the magnitudes, which is at least 0; 0 of 0 and 0. Neither is the least number.
pub fn gcd(a: i128, b: i128) -> i128
    requires a { unsigned_abs a < 2 ^ 127 }
    requires b { unsigned_abs b < 2 ^ 127 }
    ensures divisor { result ≡ pos (greatest (unsigned_abs a) (unsigned_abs b)) }
{
    common(a.unsigned_abs(), b.unsigned_abs()) as i128
}
