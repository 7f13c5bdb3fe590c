//! Laws of generators, for what stands on them.

ghost use Rattle.cgl_gen.specs.CutLaws.{CutsAreSound};

use cgl_derive::soundness;

/// What the cuts of generators are.
pub fn cut_laws()
    ensures { CutsAreSound }
{
    soundness();
}
