ghost use Rattle.std.specs.Prelude.{◌≡◌, map};
ghost use Rattle.cgl_decode.specs.Records.{field};

use crate::sections::word_at;
use cgl_decode::Section;
use std::marker::Model;

/// A line of a deck with its section and its fields, which are lent. A line that is ignored has no fields.
#[derive(Drop)]
pub(crate) struct Record<'f, 'a> {
    pub(crate) line: u64,
    pub(crate) length: usize,
    pub(crate) section: Section,
    pub(crate) header: bool,
    pub(crate) fields: &'f [&'a [u8]],
}

impl<'f, 'a> Model for Record<'f, 'a> {
    ghost use Rattle.std.specs.Prelude.{map};
    ghost use Rattle.cgl_decode.specs.Records.{Record as Line};

    ghost Value = { Line };

    ghost view = { λ it. record { line = it.line; bytes = it.length; section = it.section; header = it.header; fields = map (λ f. f.now) it.fields.now } };
}

impl<'f, 'a> Record<'f, 'a> {
    /// The line's number from 1.
    pub(crate) fn line(&self) -> u64
        ensures { result ≡ self.now.line }
    {
        self.line
    }

    /// The count of the line's bytes.
    pub(crate) fn length(&self) -> usize
        ensures { result ≡ self.now.bytes }
    {
        self.length
    }

    pub(crate) fn section(&self) -> Section
        ensures { result ≡ self.now.section }
    {
        self.section
    }

    /// Whether the line begins its section.
    pub(crate) fn is_header(&self) -> bool
        ensures { result ≡ self.now.header }
    {
        self.header
    }

    pub(crate) fn fields(&self) -> &'f [&'a [u8]]
        ensures { map (λ f. f.now) result.now ≡ self.now.fields }
    {
        self.fields
    }
}

/// The field at place k from 0, and an empty one where there is none.
pub(crate) fn field<'a>(r: &Record<'_, 'a>, k: usize) -> &'a [u8]
    ensures { result.now ≡ field k r.now }
{
    word_at(r.fields(), k)
}
