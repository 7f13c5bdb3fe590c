use crate::Site;
use cgl_derive::Answer;
use cgl_num::Memory;
use std::alloc::Global;

/// Says of each of its items, which are numbered from 0, what cut it gives at a site.
pub trait Generator {
    ghost use Rattle.std.specs.Prelude.{◌≡◌, ◌<◌, ℕ, IfOk};
    ghost use Rattle.cgl_derive.specs.declared.answer.Answer.{Answer};
    ghost use Rattle.cgl_derive.specs.declared.answer.Answer.TheVariants.{Cut};
    ghost use Rattle.cgl_derive.specs.declared.answer.Candidate.{Candidate};
    ghost use Rattle.cgl_gen.specs.CutLaws.{IsCutAt};
    ghost use Rattle.cgl_gen.specs.Setting.{Setting, IsSetting};

    /// How many items there are at a site.
    ghost count: { Self → Setting → ℕ };

    /// What is said of an item.
    ghost says: { Self → Setting → ℕ → Answer };

    /// The number of items.
    ///
    /// # Errors
    ///
    /// `Memory` where memory is refused, and for no other cause.
    fn items(&self, alloc: Global, site: &Site<'_>) -> Result<u64, Memory>
        ensures { IfOk result (λ n. n ≡ count self.now site.now) };

    /// What is said of an item.
    ///
    /// # Errors
    ///
    /// `Memory` where memory is refused, and for no other cause.
    fn give(&self, alloc: Global, site: &Site<'_>, item: u64) -> Result<Answer, Memory>
        requires { item < count self.now site.now }
        ensures { IfOk result (λ answer. answer ≡ says self.now site.now item) };

    /// A cut that is said is derived in at most two steps, and violated at the point by its fraction.
    ghost lawful: { (g : Self) (s : Setting) (item : ℕ) (c : Candidate) → IsSetting s → item < count g s → says g s item ≡ Cut c → IsCutAt s.model s.point c };
}
