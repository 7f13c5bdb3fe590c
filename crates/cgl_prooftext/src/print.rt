ghost use Rattle.std.specs.Prelude.{◌≡◌, flat_map, length, IfOk};
ghost use Rattle.cgl_prooftext.specs.ProofText.{book_text, entries_text, entry_text, head_text, knap_text, lin_text, proof_text, round_text, split_line, split_text, step_text};
ghost use Rattle.cgl_prooftext.specs.TextLength.{most};
ghost use Rattle.cgl_prooftext.specs.TextOutput.{Longer};

use crate::field::{append_count, append_ineq, append_number, append_terms};
use crate::output::Output;
use crate::reference::{append_ref, append_refs};
use cgl_derive::{Book, Derivation, Knap, Lin, Round, Split, Step};
use cgl_model::Ineq;
use cgl_num::Memory;
use cgl_text::Builder;
use std::alloc::Global;

fn append_lin(output: &mut Output, lin: &Lin)
    ensures { Longer (lin_text lin.now) output.old output.new }
{
    output.append(b"lin");
    append_number(output, lin.q);
    append_refs(output, lin.refs.as_slice());
    append_ineq(output, &lin.claim);
    output.append(b"\n");
}

fn append_round(output: &mut Output, round: &Round)
    ensures { Longer (round_text round.now) output.old output.new }
{
    output.append(b"round");
    append_number(output, round.g);
    append_ref(output, round.from);
    append_ineq(output, &round.claim);
    output.append(b"\n");
}

fn append_knap(output: &mut Output, knap: &Knap)
    ensures { Longer (knap_text knap.now) output.old output.new }
{
    output.append(b"knap");
    append_ref(output, knap.from);
    append_ineq(output, &knap.claim);
    output.append(b"\n");
}

/// The line that opens a split.
fn append_split_line(output: &mut Output, p: &[(u32, i128)], p0: i128, claim: &Ineq)
    ensures { Longer (split_line p.now p0 claim.now) output.old output.new }
{
    output.append(b"split");
    append_terms(output, p);
    append_number(output, p0);
    append_ineq(output, claim);
    output.append(b"\n");
}

#[cycle(steps)]
fn append_split(output: &mut Output, split: &Split)
    ensures { Longer (split_text split.now) output.old output.new }
{
    append_split_line(output, split.p.as_slice(), split.p0, &split.claim);
    append_steps(output, split.left.steps.as_slice());
    output.append(b"else\n");
    append_steps(output, split.right.steps.as_slice());
    output.append(b"done\n");
}

#[cycle(steps)]
fn append_step(output: &mut Output, step: &Step)
    ensures { Longer (step_text step.now) output.old output.new }
{
    match step {
        Step::Lin(lin) => append_lin(output, lin),
        Step::Round(round) => append_round(output, round),
        Step::Split(split) => append_split(output, split),
        Step::Knap(knap) => append_knap(output, knap),
    }
}

#[cycle(steps)]
fn append_steps(output: &mut Output, steps: &[Step])
    ensures { Longer (flat_map step_text steps.now) output.old output.new }
{
    for step in steps {
        append_step(output, step);
    }
}

/// An inequality behind this word, and the steps that derive it.
fn append_entry(output: &mut Output, word: &[u8], entry: &(Ineq, Derivation))
    ensures { Longer (entry_text word.now entry.now) output.old output.new }
{
    output.append(word);
    append_ineq(output, &entry.0);
    output.append(b"\n");
    append_steps(output, entry.1.steps.as_slice());
    output.append(b"qed\n");
}

/// How many entries there are, behind one word, and each of them behind another.
fn append_entries(output: &mut Output, words: &[u8], word: &[u8], entries: &[(Ineq, Derivation)])
    ensures { Longer (entries_text words.now word.now entries.now) output.old output.new }
{
    output.append(words);
    append_count(output, entries.len());
    output.append(b"\n");
    for entry in entries {
        append_entry(output, word, entry);
    }
}

/// The format, and the shared inequalities.
fn append_head(output: &mut Output, shared: &[(Ineq, Derivation)])
    ensures { Longer (head_text shared.now) output.old output.new }
{
    if shared.is_empty() {
        output.append(b"cgl-proof 1\n");
    } else {
        output.append(b"cgl-proof 2\n");
        append_entries(output, b"lemmas", b"lemma", shared);
    }
}

fn append_book(output: &mut Output, shared: &[(Ineq, Derivation)], cuts: &[(Ineq, Derivation)])
    ensures { Longer (book_text (record { shared = shared.now; cuts = cuts.now })) output.old output.new }
{
    append_head(output, shared);
    append_entries(output, b"cuts", b"cut", cuts);
    output.append(b"end\n");
}

/// The text of the book of these shared inequalities and cuts.
///
/// # Errors
///
/// `Memory` where memory is refused, and for no other cause.
pub(crate) fn text_of_lists(
    alloc: Global,
    shared: &[(Ineq, Derivation)],
    cuts: &[(Ineq, Derivation)],
) -> Result<Vec<u8>, Memory>
    ensures { IfOk result (λ text. text.items ≡ book_text (record { shared = shared.now; cuts = cuts.now })) }
{
    let mut output = Output {
        len: 0,
        bytes: Some(Builder::new(alloc)),
    };
    append_book(&mut output, shared, cuts);
    match output.bytes {
        Some(bytes) => bytes.finish(),
        None => unreachable!(),
    }
}

/// The text of proofs, each of them a cut and its derivation: a line for each step, with columns and rows by their
/// numbers.
///
/// # Errors
///
/// `Memory` where memory is refused, and for no other cause.
pub fn proof_text(alloc: Global, list: &[(Ineq, Derivation)]) -> Result<Vec<u8>, Memory>
    ensures { IfOk result (λ text. text.items ≡ proof_text list.now) }
{
    text_of_lists(alloc, &[], list)
}

/// The length in bytes of the text of a book, or the greatest u64 where the text is longer. Takes no memory.
pub fn proofs_len(book: &Book) -> u64
    ensures { result ≡ most (length (book_text book.now)) }
{
    let mut output = Output::counting();
    append_book(&mut output, book.shared.as_slice(), book.cuts.as_slice());
    output.len
}
