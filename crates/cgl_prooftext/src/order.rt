ghost use Rattle.std.specs.Prelude.{◌≡◌, nat_lt, true};
ghost use Rattle.cgl_num.specs.NumberText.{natural};
ghost use Rattle.cgl_prooftext.specs.LineResult.{is_natural};

/// Whether one number is below another, both of any size: the shorter one is, and of two of one length the first digit
/// in which they differ decides.
pub(crate) fn is_below(a: &[u8], b: &[u8]) -> bool
    requires a { is_natural a.now ≡ true }
    requires b { is_natural b.now ≡ true }
    ensures { result ≡ nat_lt (natural a.now) (natural b.now) }
{
    if a.len() != b.len() {
        return a.len() < b.len();
    }
    a < b
}
