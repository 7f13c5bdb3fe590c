ghost use Rattle.std.specs.Prelude.{◌≡◌, ◌⊎◌, true, IfErr, IfOk};
ghost use Rattle.std.specs.Result.{result_err};
ghost use Rattle.cgl_model.specs.Valid.{IsValid, IsSized};
ghost use Rattle.cgl_deck.specs.DeckText.{deck_text};
ghost use Rattle.cgl_outside.specs.Script.{Came};
ghost use Rattle.cgl_outside.specs.View.{view};
ghost use Rattle.cgl_app.specs.Commands.{show_script, show_works};
ghost use Rattle.cgl_app.specs.CutOf.{is_too_long};
ghost use Rattle.cgl_app.specs.Meant.{show_file};
ghost use Rattle.cgl_words.specs.Meant.{show_words_of};
ghost use Rattle.cgl_app.specs.Ran.{Ran};
ghost use Rattle.cgl_app.specs.Refusals.{name_in};
ghost use Rattle.cgl_app.specs.ShowSteps.{AreCounts};

use crate::files::show_name;
use crate::report::counts_text;
use crate::say::say_why;
use crate::steps::{put_report, read_model, write_model};
use crate::texts::is_too_long_deck;
use crate::{Refusal, ShowFile};
use cgl_model::Model;
use cgl_outside::{Shelf, Sink};
use cgl_words::Show;
use std::alloc::Global;

/// The counts of a model whose canonical text is not too long.
fn counts(alloc: Global, model: &Model) -> Result<Vec<u8>, Refusal<ShowFile>>
    requires { IsSized model.now }
    ensures counts { IfOk result (AreCounts model.now) }
    ensures refused { IfErr result (λ e. (e ≡ Refusal.Memory) ⊎ ((e ≡ Refusal.TooLarge) × (is_too_long (deck_text model.now) ≡ true))) }
{
    if is_too_long_deck(model) {
        return Err(Refusal::TooLarge);
    }
    let Ok(counts) = counts_text(alloc, model) else {
        return Err(Refusal::Memory);
    };
    Ok(counts)
}

/// Writes the canonical text of the model, and the counts.
fn deliver<S: Shelf, O: Sink>(
    alloc: Global,
    show: &Show<'_>,
    model: &Model,
    shelf: &mut S,
    out: &mut O,
) -> Result<(), Refusal<ShowFile>>
    requires { IsValid model.now }
    ensures { Came Refusal.Memory (show_works (show_words_of show.now) model.now)
        (view (S.held shelf.old) (S.failed_reads shelf.old) (S.failed_writes shelf.old) (O.written out.old) (O.faults out.old))
        (view (S.held shelf.new) (S.failed_reads shelf.new) (S.failed_writes shelf.new) (O.written out.new) (O.faults out.new))
        (result_err result) }
{
    let counts = counts(alloc, model)?;
    write_model(alloc, shelf, show.out, model, ShowFile::Out)?;
    put_report(out, &counts)
}

/// The command `show`.
fn show<S: Shelf, O: Sink>(
    alloc: Global,
    show: &Show<'_>,
    shelf: &mut S,
    out: &mut O,
) -> Result<(), Refusal<ShowFile>>
    ensures { Came Refusal.Memory (show_script (show_words_of show.now))
        (view (S.held shelf.old) (S.failed_reads shelf.old) (S.failed_writes shelf.old) (O.written out.old) (O.faults out.old))
        (view (S.held shelf.new) (S.failed_reads shelf.new) (S.failed_writes shelf.new) (O.written out.new) (O.faults out.new))
        (result_err result) }
{
    let model = read_model(alloc, shelf, show.model, ShowFile::Model)?;
    deliver(alloc, show, &model, shelf, out)
}

/// The name of the file that the refusal is about, or no name.
fn name_in<'a>(show: &Show<'a>, refusal: &Refusal<ShowFile>) -> &'a str
    ensures { result.now ≡ name_in (show_file (show_words_of show.now)) refusal.now }
{
    match refusal.file() {
        Some(file) => show_name(show, file),
        None => "",
    }
}

/// Does the command, tells of it on `err` and gives the exit status.
pub fn run_show<S: Shelf, O: Sink, E: Sink>(
    alloc: Global,
    words: &Show<'_>,
    shelf: &mut S,
    out: &mut O,
    err: &mut E,
) -> u8
    ensures { Ran (show_file (show_words_of words.now)) (show_script (show_words_of words.now))
        (view (S.held shelf.old) (S.failed_reads shelf.old) (S.failed_writes shelf.old) (O.written out.old) (O.faults out.old))
        (view (S.held shelf.new) (S.failed_reads shelf.new) (S.failed_writes shelf.new) (O.written out.new) (O.faults out.new))
        (E.written err.old) (E.written err.new) (E.faults err.old) (E.faults err.new) result }
{
    match show(alloc, words, shelf, out) {
        Ok(()) => 0,
        Err(refusal) => {
            say_why(err, &refusal, name_in(words, &refusal));
            refusal.status()
        }
    }
}
