ghost use Rattle.std.specs.Prelude.{◌≡◌, ◌⊎◌, ◌||◌, pos, ◌<ℤ◌, false, None, Some, IfOk, IfErr, length, map, zip};
ghost use Rattle.std.specs.Result.{result_err};
ghost use Rattle.cgl_model.specs.HasDecimals.{HasDecimals};
ghost use Rattle.cgl_model.specs.Valid.{IsValid};
ghost use Rattle.cgl_deck.specs.CutNames.{cut_names};
ghost use Rattle.cgl_deck.specs.DeckText.{deck_text};
ghost use Rattle.cgl_deck.specs.Extended.{extended};
ghost use Rattle.cgl_gen.specs.Setting.{IsSetting};
ghost use Rattle.cgl_outside.specs.Script.{Came};
ghost use Rattle.cgl_outside.specs.View.{view};
ghost use Rattle.cgl_model.specs.IntegerForm.{forms_of};
ghost use Rattle.cgl_pool.specs.Does.{AreRising};
ghost use Rattle.cgl_pool.specs.Generators.{any};
ghost use Rattle.cgl_pool.specs.Task.{Task as Meant, listed_cuts, wide_keys};
ghost use Rattle.cgl_prooftext.specs.ProofText.{proof_text};
ghost use Rattle.cgl_app.specs.Commands.{cut_script, cut_starts, cut_works};
ghost use Rattle.cgl_app.specs.CutOf.{inequality_of, is_too_long, proof_of};
ghost use Rattle.cgl_app.specs.CutSteps.{AreTexts, TextsRefused, derivation_of};
ghost use Rattle.cgl_app.specs.CutTask.{setting_at, task_at};
ghost use Rattle.cgl_app.specs.Meant.{cut_file};
ghost use Rattle.cgl_words.specs.Meant.{words_of};
ghost use Rattle.cgl_app.specs.Ran.{Ran};
ghost use Rattle.cgl_app.specs.Refusals.{name_in};
ghost use Rattle.cgl_app.specs.Report.{report_text};

use crate::files::cut_name;
use crate::report::report_text;
use crate::say::say_why;
use crate::steps::{put_report, read_model, read_point, write_file, write_model};
use crate::texts::{CutTexts, is_too_long, is_too_long_deck};
use crate::{CutFile, Refusal};
use cgl_deck::{ExtendError, cut_names, extension_laws, with_cuts};
use cgl_derive::{Candidate, Derivation};
use cgl_gen::{Rounder, Site};
use cgl_model::{Forms, Ineq, Model, Point};
use cgl_num::Memory;
use cgl_outside::{Shelf, Sink};
use cgl_pool::{AnyGen, Gathered, Kept, Task, generate};
use cgl_prooftext::proof_text;
use cgl_where::known_points;
use cgl_words::Cut;
use std::alloc::Global;

/// The cuts that these generators list at the site, and the items whose answer was too wide.
fn generated<'x>(
    alloc: Global,
    site: &'x Site<'x>,
    generators: &'x [AnyGen],
    order: &'x [u32],
) -> Result<Gathered, Memory>
    requires { AreRising any generators.now }
    ensures listed { IfOk result (λ gathered. gathered.listed ≡ listed_cuts (record { setting = site.now; generators = generators.now; order = order.now; stop = None })) }
    ensures wide { IfOk result (λ gathered. gathered.wides ≡ wide_keys (record { setting = site.now; generators = generators.now; order = order.now; stop = None })) }
{
    let task = Task::new(site, generators, order, None);
    generate(alloc, &task)
}

/// The same for the generators that are chosen, at a point of the model with these forms.
fn gathered_with<'x>(
    alloc: Global,
    model: &'x Model,
    forms: &'x Forms,
    point: &'x Point,
) -> Result<Gathered, Memory>
    requires forms { forms.now ≡ forms_of model.now }
    requires setting { IsSetting (setting_at model.now point.now) }
    ensures listed { IfOk result (λ gathered. gathered.listed ≡ listed_cuts (task_at model.now point.now)) }
    ensures wide { IfOk result (λ gathered. gathered.wides ≡ wide_keys (task_at model.now point.now)) }
{
    let site = Site::new(model, forms, point, None);
    generated(alloc, &site, &[AnyGen::Rounder(Rounder)], &[0])
}

/// The same at a point of the model.
fn gathered(alloc: Global, model: &Model, point: &Point) -> Result<Gathered, Memory>
    requires { IsSetting (setting_at model.now point.now) }
    ensures listed { IfOk result (λ gathered. gathered.listed ≡ listed_cuts (task_at model.now point.now)) }
    ensures wide { IfOk result (λ gathered. gathered.wides ≡ wide_keys (task_at model.now point.now)) }
{
    let forms = Forms::build(alloc, model)?;
    gathered_with(alloc, model, &forms, point)
}

/// The listed cuts as inequalities and their derivations.
fn parts(alloc: Global, listed: Vec<Kept>) -> Result<(Vec<Ineq>, Vec<Derivation>), Memory>
    ensures cuts { IfOk result (λ parts. parts.0.items ≡ map inequality_of listed.items) }
    ensures derivations { IfOk result (λ parts. parts.1.items ≡ map derivation_of listed.items) }
{
    let mut cuts = Vec::new(alloc);
    let mut derivations = Vec::new(alloc);
    'listed: for kept in listed {
        let Kept { key: _, candidate } = kept;
        let Candidate {
            cut,
            derivation,
            violation: _,
        } = candidate;
        let (Ok(()), Ok(())) = (cuts.push(cut), derivations.push(derivation)) else {
            return Err(Memory);
        };
    }
    Ok((cuts, derivations))
}

/// Each cut with its derivation.
fn pairs(
    alloc: Global,
    cuts: Vec<Ineq>,
    derivations: Vec<Derivation>,
) -> Result<Vec<(Ineq, Derivation)>, Memory>
    ensures { IfOk result (λ pairs. pairs.items ≡ zip cuts.items derivations.items) }
{
    let Ok(pairs) = cuts.into_iter().zip(derivations).collect(alloc) else {
        return Err(Memory);
    };
    Ok(pairs)
}

/// The text of the derivations.
fn proofs(alloc: Global, cuts: Vec<Ineq>, derivations: Vec<Derivation>) -> Result<Vec<u8>, Memory>
    ensures { IfOk result (λ text. text.items ≡ proof_text (zip cuts.items derivations.items)) }
{
    let pairs = pairs(alloc, cuts, derivations)?;
    proof_text(alloc, &pairs)
}

/// The report on a model's listed cuts.
fn report(
    alloc: Global,
    model: &Model,
    listed: &[Kept],
    wides: &[(u32, u64)],
) -> Result<Vec<u8>, Memory>
    ensures { IfOk result (λ text. text.items ≡ report_text (cut_names model.now (length listed.now)) listed.now wides.now) }
{
    let Ok(count) = u32::try_from(listed.len()) else {
        return Err(Memory);
    };
    let names = cut_names(alloc, model, count)?;
    report_text(alloc, names.as_slice(), listed, wides)
}

/// The model with cuts as further rows.
fn extended(alloc: Global, model: &Model, cuts: &[Ineq]) -> Result<Model, Refusal<CutFile>>
    requires { IsValid model.now }
    ensures model { IfOk result (λ n. extended model.now cuts.now ≡ Some n) }
    ensures valid { IfOk result IsValid }
    ensures refused { IfErr result (λ e. (e ≡ Refusal.Memory) ⊎ ((e ≡ Refusal.TooLarge) × (extended model.now cuts.now ≡ None))) }
{
    if u32::try_from(cuts.len()).is_err() {
        return Err(Refusal::Memory);
    }
    extension_laws();
    match with_cuts(alloc, model, cuts) {
        Ok(extension) => Ok(extension),
        Err(ExtendError::Memory) => Err(Refusal::Memory),
        Err(_) => Err(Refusal::TooLarge),
    }
}

fn are_too_long(deck: &Model, proofs: &[u8]) -> bool
    ensures { result ≡ (is_too_long (deck_text deck.now) || is_too_long proofs.now) }
{
    is_too_long_deck(deck) || is_too_long(proofs)
}

/// The model with these cuts, and the text of their derivations.
fn deck_and_proofs(
    alloc: Global,
    model: &Model,
    listed: Vec<Kept>,
) -> Result<(Model, Vec<u8>), Refusal<CutFile>>
    requires { IsValid model.now }
    ensures deck { IfOk result (λ texts. extended model.now (map inequality_of listed.items) ≡ Some texts.0) }
    ensures valid { IfOk result (λ texts. IsValid texts.0) }
    ensures proofs { IfOk result (λ texts. texts.1.items ≡ proof_text (map proof_of listed.items)) }
    ensures small { IfOk result (λ texts. (is_too_long (deck_text texts.0) || is_too_long texts.1.items) ≡ false) }
    ensures refused { (t : Meant) → t.setting.model ≡ model.now → listed.items ≡ listed_cuts t → IfErr result (TextsRefused t) }
{
    let Ok((cuts, derivations)) = parts(alloc, listed) else {
        return Err(Refusal::Memory);
    };
    let deck = extended(alloc, model, &cuts)?;
    let Ok(proofs) = proofs(alloc, cuts, derivations) else {
        return Err(Refusal::Memory);
    };
    if are_too_long(&deck, &proofs) {
        return Err(Refusal::TooLarge);
    }
    Ok((deck, proofs))
}

/// All that a cut writes.
fn texts(alloc: Global, model: &Model, point: &Point) -> Result<CutTexts, Refusal<CutFile>>
    requires valid { IsValid model.now }
    requires setting { IsSetting (setting_at model.now point.now) }
    ensures texts { IfOk result (AreTexts (task_at model.now point.now)) }
    ensures refused { IfErr result (TextsRefused (task_at model.now point.now)) }
{
    let Ok(gathered) = gathered(alloc, model, point) else {
        return Err(Refusal::Memory);
    };
    let Gathered { listed, wides } = gathered;
    let Ok(report) = report(alloc, model, listed.as_slice(), wides.as_slice()) else {
        return Err(Refusal::Memory);
    };
    let (deck, proofs) = deck_and_proofs(alloc, model, listed.into_vec())?;
    Ok(CutTexts {
        deck,
        proofs,
        report,
    })
}

/// Writes what a cut makes. All texts but that of the deck, which is written first, are there.
fn write_texts<S: Shelf, O: Sink>(
    alloc: Global,
    cut: &Cut<'_>,
    texts: &CutTexts,
    shelf: &mut S,
    out: &mut O,
) -> Result<(), Refusal<CutFile>>
    requires { IsValid texts.now.deck }
    ensures { (t : Meant) → AreTexts t texts.now → Came Refusal.Memory (cut_works (words_of cut.now) t)
        (view (S.held shelf.old) (S.failed_reads shelf.old) (S.failed_writes shelf.old) (O.written out.old) (O.faults out.old))
        (view (S.held shelf.new) (S.failed_reads shelf.new) (S.failed_writes shelf.new) (O.written out.new) (O.faults out.new))
        (result_err result) }
{
    write_model(alloc, shelf, cut.out, &texts.deck, CutFile::Out)?;
    write_file(shelf, cut.proof, &texts.proofs, CutFile::Proof)?;
    put_report(out, &texts.report)
}

/// Writes what a cut makes of the model and the point.
fn deliver<S: Shelf, O: Sink>(
    alloc: Global,
    cut: &Cut<'_>,
    model: &Model,
    point: &Point,
    shelf: &mut S,
    out: &mut O,
) -> Result<(), Refusal<CutFile>>
    requires valid { IsValid model.now }
    requires setting { IsSetting (setting_at model.now point.now) }
    ensures { Came Refusal.Memory (cut_works (words_of cut.now) (task_at model.now point.now))
        (view (S.held shelf.old) (S.failed_reads shelf.old) (S.failed_writes shelf.old) (O.written out.old) (O.faults out.old))
        (view (S.held shelf.new) (S.failed_reads shelf.new) (S.failed_writes shelf.new) (O.written out.new) (O.faults out.new))
        (result_err result) }
{
    let texts = texts(alloc, model, point)?;
    write_texts(alloc, cut, &texts, shelf, out)
}

/// Reads where the columns of the model stand, and does the rest.
fn with_model<S: Shelf, O: Sink>(
    alloc: Global,
    cut: &Cut<'_>,
    model: Model,
    shelf: &mut S,
    out: &mut O,
) -> Result<(), Refusal<CutFile>>
    requires valid { IsValid model }
    requires decimals { HasDecimals model }
    ensures { Came Refusal.Memory (cut_starts (words_of cut.now) model (words_of cut.now).start)
        (view (S.held shelf.old) (S.failed_reads shelf.old) (S.failed_writes shelf.old) (O.written out.old) (O.faults out.old))
        (view (S.held shelf.new) (S.failed_reads shelf.new) (S.failed_writes shelf.new) (O.written out.new) (O.faults out.new))
        (result_err result) }
{
    let point = read_point(alloc, shelf, cut.start.name(), &model, CutFile::Start)?;
    known_points();
    deliver(alloc, cut, &model, &point, shelf, out)
}

/// The command `cut`.
fn cut<S: Shelf, O: Sink>(
    alloc: Global,
    cut: &Cut<'_>,
    shelf: &mut S,
    out: &mut O,
) -> Result<(), Refusal<CutFile>>
    ensures { Came Refusal.Memory (cut_script (words_of cut.now))
        (view (S.held shelf.old) (S.failed_reads shelf.old) (S.failed_writes shelf.old) (O.written out.old) (O.faults out.old))
        (view (S.held shelf.new) (S.failed_reads shelf.new) (S.failed_writes shelf.new) (O.written out.new) (O.faults out.new))
        (result_err result) }
{
    let model = read_model(alloc, shelf, cut.model, CutFile::Model)?;
    with_model(alloc, cut, model, shelf, out)
}

/// The name of the file that the refusal is about, or no name.
fn name_in<'a>(cut: &Cut<'a>, refusal: &Refusal<CutFile>) -> &'a str
    ensures { result.now ≡ name_in (cut_file (words_of cut.now)) refusal.now }
{
    match refusal.file() {
        Some(file) => cut_name(cut, file),
        None => "",
    }
}

/// Does the command, tells of it on `err` and gives the exit status.
pub fn run_cut<S: Shelf, O: Sink, E: Sink>(
    alloc: Global,
    words: &Cut<'_>,
    shelf: &mut S,
    out: &mut O,
    err: &mut E,
) -> u8
    ensures { Ran (cut_file (words_of words.now)) (cut_script (words_of words.now))
        (view (S.held shelf.old) (S.failed_reads shelf.old) (S.failed_writes shelf.old) (O.written out.old) (O.faults out.old))
        (view (S.held shelf.new) (S.failed_reads shelf.new) (S.failed_writes shelf.new) (O.written out.new) (O.faults out.new))
        (E.written err.old) (E.written err.new) (E.faults err.old) (E.faults err.new) result }
{
    match cut(alloc, words, shelf, out) {
        Ok(()) => 0,
        Err(refusal) => {
            say_why(err, &refusal, name_in(words, &refusal));
            refusal.status()
        }
    }
}
