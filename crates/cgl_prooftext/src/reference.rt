ghost use Rattle.std.specs.Prelude.{◌≡◌, [], ◌∷◌};
ghost use Rattle.cgl_prooftext.specs.ProofText.{end_text, fields_text, numbered, ref_text, refs_fields};
ghost use Rattle.cgl_prooftext.specs.TextOutput.{Longer};

use crate::field::{append_count, append_number};
use crate::output::Output;
use cgl_derive::Ref;
use cgl_model::{End, Place};
use itoa::Buffer;

fn end_letter(end: End) -> &'static [u8]
    ensures { result.now ≡ end_text end }
{
    match end {
        End::Lower => b"L",
        End::Upper => b"U",
    }
}

/// A field: a letter that says of what the number is, and an end's letter where there is one.
fn append_numbered(output: &mut Output, letter: &[u8], number: u32, end: &[u8])
    ensures { Longer (fields_text (numbered letter.now number end.now ∷ [])) output.old output.new }
{
    let mut buffer = Buffer::new();
    output.append(b" ");
    output.append(letter);
    output.append(buffer.format(number).as_bytes());
    output.append(end);
}

pub(crate) fn append_ref(output: &mut Output, reference: Ref)
    ensures { Longer (fields_text (ref_text reference ∷ [])) output.old output.new }
{
    match reference {
        Ref::Side(Place::Row(row, end)) => append_numbered(output, b"r", row, end_letter(end)),
        Ref::Side(Place::Bound(column, end)) => append_numbered(
            output,
            b"c",
            column,
            end_letter(end),
        ),
        Ref::Step(step) => append_numbered(output, b"s", step, b""),
        Ref::Given(given) => append_numbered(output, b"g", given, b""),
        Ref::Shared(shared) => append_numbered(output, b"m", shared, b""),
    }
}

/// How many references there are, and each with its multiplier.
pub(crate) fn append_refs(output: &mut Output, refs: &[(Ref, i128)])
    ensures { Longer (fields_text (refs_fields refs.now)) output.old output.new }
{
    append_count(output, refs.len());
    for part in refs {
        append_ref(output, part.0);
        append_number(output, part.1);
    }
}
