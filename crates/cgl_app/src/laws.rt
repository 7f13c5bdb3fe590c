//! Laws of the cuts that are listed, and of the lines that are told.

ghost use Rattle.std.specs.Prelude.{None, Some, ◌≡◌, ◌↔◌};
ghost use Rattle.cgl_model.specs.declared.mip.Model.{Model};
ghost use Rattle.cgl_model.specs.Feasible.{IsFeasible, SamePoints};
ghost use Rattle.cgl_model.specs.Point.{Point};
ghost use Rattle.cgl_model.specs.Valid.{IsValid};
ghost use Rattle.cgl_pool.specs.Task.{IsTask, Task};
ghost use Rattle.cgl_app.specs.Accepts.{Accepts};
ghost use Rattle.cgl_app.specs.Below.{Below};
ghost use Rattle.cgl_app.specs.CutAnswers.{ExceedsSizes};
ghost use Rattle.cgl_app.specs.CutMeaning.{AreRight, MeetsListed};
ghost use Rattle.cgl_app.specs.CutOf.{book_of, extension};
ghost use Rattle.cgl_app.specs.KnownLines.{KnownLines};
ghost use Rattle.cgl_app.specs.Verdict.{verdict};
ghost use Rattle.cgl_derive.specs.declared.book.Book.{Book};

use cgl_check::exactness;
use cgl_deck::{extension_laws, round_trip_laws};
use cgl_decode::laws::deck_results;
use cgl_derive::{lists, soundness};
use cgl_outside::shelf_laws;
use cgl_pool::task_laws;
use cgl_where::known_points;
use cgl_words::file_names;

/// What the laws of the crates below say.
pub fn laws_below()
    ensures { Below }
{
    shelf_laws();
    deck_results();
    known_points();
    round_trip_laws();
    extension_laws();
    task_laws();
    lists();
    soundness();
    file_names();
}

/// What the listed cuts of a task are: each is violated by its fraction and proved by its derivation, and each feasible
/// point meets it. So the model with them as further rows has the same feasible points, and there is no such model only
/// where it has too many rows or entries.
pub fn cut_laws()
    ensures right { (t : Task) → IsTask t → AreRight t }
    ensures met { (t : Task) → IsTask t → (y : Point) → IsFeasible t.setting.model y → MeetsListed t y }
    ensures points { (t : Task) (n : Model) → IsTask t → IsValid t.setting.model → extension t ≡ Some n → SamePoints t.setting.model n }
    ensures accepted { (t : Task) (n : Model) → IsTask t → extension t ≡ Some n → Accepts t.setting.model n (book_of t) }
    ensures sizes { (t : Task) → IsTask t → (extension t ≡ None) ↔ ExceedsSizes t }
{
    laws_below();
}

/// The lines that name rows and columns of a model, on a model.
pub fn known_lines()
    ensures { KnownLines }
{}

/// Nothing is refused of a deck and a book just where they are accepted for the model.
pub fn verdict_laws()
    ensures { (m n : Model) (book : Book) → (verdict m n book ≡ None) ↔ Accepts m n book }
{
    exactness();
}
