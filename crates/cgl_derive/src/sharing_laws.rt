//! Laws of books whose cuts share steps.

ghost use Rattle.std.specs.Prelude.{◌≡◌, List, ◌++◌, length, take};
ghost use Rattle.cgl_model.specs.declared.linear.Ineq.{Ineq};
ghost use Rattle.cgl_model.specs.declared.mip.Model.{Model};
ghost use Rattle.cgl_derive.specs.declared.book.Book.{Book};
ghost use Rattle.cgl_derive.specs.declared.step.Derivation.{Derivation};
ghost use Rattle.cgl_derive.specs.Books.{inequalities};
ghost use Rattle.cgl_derive.specs.Derives.{Derives};
ghost use Rattle.cgl_derive.specs.SharedBook.{shared_book};

/// A book whose cuts share steps has the cuts that it had, each with its inequality, and before all others the lemmas that
/// it had.
pub fn sharing()
    ensures cuts { (book : Book) → inequalities (shared_book book).cuts ≡ inequalities book.cuts }
    ensures lemmas { (book : Book) → take (length book.shared) (shared_book book).shared ≡ book.shared }
{}

/// A derivation stays right where more inequalities are shared, behind those that are.
pub fn more_shared()
    ensures { (m : Model) (shared more : List Ineq) (d : Derivation) (goal : Ineq) → Derives m shared d goal → Derives m (shared ++ more) d goal }
{}
