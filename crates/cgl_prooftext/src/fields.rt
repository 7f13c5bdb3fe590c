ghost use Rattle.std.specs.Prelude.{◌≡◌, [], ◌∷◌, IfNone, IfSome};
ghost use Rattle.cgl_prooftext.specs.LineResult.{fields_of};
ghost use Rattle.cgl_prooftext.specs.Readings.{fields_left};

use crate::words::space_place;

/// The first field, and what stands behind the space that ends it.
fn first_field(line: &[u8]) -> (&[u8], Option<&[u8]>)
    ensures { fields_of line.now ≡ result.0.now ∷ fields_left result.1 }
{
    let end = space_place(line);
    if end < line.len() {
        return (&line[..end], Some(&line[end + 1..]));
    }
    (line, None)
}

/// The fields of a line that are still to be read. A line has one at least, which may be empty.
#[derive(Drop)]
pub(crate) struct Fields<'a> {
    rest: Option<&'a [u8]>,
}

impl<'a> Fields<'a> {
    pub(crate) fn new(line: &'a [u8]) -> Fields<'a>
        ensures { fields_left result.rest ≡ fields_of line.now }
    {
        Fields { rest: Some(line) }
    }

    /// The next field.
    pub(crate) fn take(&mut self) -> Option<&'a [u8]>
        ensures none { IfNone result (fields_left self.old.rest ≡ []) }
        ensures some { IfSome result (λ field. fields_left self.old.rest ≡ field.now ∷ fields_left self.new.rest) }
    {
        let Some(rest) = self.rest else {
            return None;
        };
        let (field, others) = first_field(rest);
        self.rest = others;
        Some(field)
    }
}
