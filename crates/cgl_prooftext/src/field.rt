ghost use Rattle.std.specs.Prelude.{◌≡◌, [], ◌∷◌};
ghost use Rattle.std.specs.Fmt.{decimal, signed_decimal};
ghost use Rattle.cgl_prooftext.specs.ProofText.{fields_text, ineq_fields, terms_fields};
ghost use Rattle.cgl_prooftext.specs.TextOutput.{Longer};

use crate::output::Output;
use cgl_model::Ineq;
use itoa::Buffer;

/// A field behind a space.
pub(crate) fn append_field(output: &mut Output, field: &[u8])
    ensures { Longer (fields_text (field.now ∷ [])) output.old output.new }
{
    output.append(b" ");
    output.append(field);
}

pub(crate) fn append_count(output: &mut Output, n: usize)
    ensures { Longer (fields_text (decimal n ∷ [])) output.old output.new }
{
    let mut buffer = Buffer::new();
    append_field(output, buffer.format(n).as_bytes());
}

pub(crate) fn append_number(output: &mut Output, n: i128)
    ensures { Longer (fields_text (signed_decimal n ∷ [])) output.old output.new }
{
    let mut buffer = Buffer::new();
    append_field(output, buffer.format(n).as_bytes());
}

/// How many terms there are, and the column and the coefficient of each.
pub(crate) fn append_terms(output: &mut Output, terms: &[(u32, i128)])
    ensures { Longer (fields_text (terms_fields terms.now)) output.old output.new }
{
    append_count(output, terms.len());
    for term in terms {
        append_count(output, term.0 as usize);
        append_number(output, term.1);
    }
}

pub(crate) fn append_ineq(output: &mut Output, ineq: &Ineq)
    ensures { Longer (fields_text (ineq_fields ineq.now)) output.old output.new }
{
    append_terms(output, ineq.terms.as_slice());
    append_field(output, b">=");
    append_number(output, ineq.rhs);
}
