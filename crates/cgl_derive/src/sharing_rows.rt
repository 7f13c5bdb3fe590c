//! Known books whose cuts share steps.

ghost use Rattle.std.specs.Prelude.{◌≡◌, [], ◌∷◌};
ghost use Rattle.cgl_derive.specs.declared.step.Ref.TheVariants.{Shared};
ghost use Rattle.cgl_derive.specs.KnownBooks.{divided, of_three, plain_book, shared_book as taken_book, taken};
ghost use Rattle.cgl_derive.specs.KnownSharing.{claims_book, dangling_book, lemma_book, lone_book, split_book, twice_book};
ghost use Rattle.cgl_derive.specs.SharedBook.{shared_book};

/// Two cuts that begin with the same division share it, and so does one cut that divides twice: it becomes a lemma, behind
/// the lemmas that are there, even where one says the same. What stays: a step that occurs once, one that takes a claim, one
/// inside a split, and a book whose cuts refer to a shared inequality that is not there.
pub fn known_sharing()
    ensures shared { shared_book plain_book ≡ taken_book }
    ensures twice { shared_book (twice_book divided []) ≡ twice_book (taken (Shared 0)) (of_three divided ∷ []) }
    ensures behind { shared_book (lemma_book [] divided) ≡ lemma_book (of_three divided ∷ []) (taken (Shared 1)) }
    ensures once { shared_book lone_book ≡ lone_book }
    ensures claims { shared_book (claims_book divided []) ≡ claims_book (taken (Shared 0)) (of_three divided ∷ []) }
    ensures split { shared_book split_book ≡ split_book }
    ensures dangling { shared_book dangling_book ≡ dangling_book }
{}
