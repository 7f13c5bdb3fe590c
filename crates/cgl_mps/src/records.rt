//! Lines of a deck as records.

ghost use Rattle.std.specs.Prelude.{◌≡◌, if◌then◌else◌};
ghost use Rattle.cgl_text.specs.Text.{is_one_of};
ghost use Rattle.cgl_text.specs.Seen.{words};
ghost use Rattle.cgl_decode.specs.Records.{first_word, is_header, is_kept, kept_fields, record_of, section_after, section_named, unsupported};

use crate::record::Record;
use crate::sections::word_at;
use cgl_decode::Section;
use cgl_text::{begins_blank, same_bytes};

fn is_unsupported(name: &[u8]) -> bool
    ensures { result ≡ is_one_of unsupported name.now }
{
    same_bytes(name, b"SOS")
        || same_bytes(name, b"SOS1")
        || same_bytes(name, b"SOS2")
        || same_bytes(name, b"QUADOBJ")
        || same_bytes(name, b"QMATRIX")
        || same_bytes(name, b"QSECTION")
        || same_bytes(name, b"QCMATRIX")
        || same_bytes(name, b"INDICATORS")
        || same_bytes(name, b"CSECTION")
        || same_bytes(name, b"LAZYCONS")
        || same_bytes(name, b"USERCUTS")
        || same_bytes(name, b"OBJNAME")
}

/// The section that a header's word opens.
fn section_named(name: &[u8]) -> Section
    ensures { result ≡ section_named name.now }
{
    if same_bytes(name, b"NAME") {
        return Section::Name;
    }
    if same_bytes(name, b"OBJSENSE") {
        return Section::Sense;
    }
    if same_bytes(name, b"ROWS") {
        return Section::Rows;
    }
    if same_bytes(name, b"COLUMNS") {
        return Section::Columns;
    }
    if same_bytes(name, b"RHS") {
        return Section::Rhs;
    }
    if same_bytes(name, b"RANGES") {
        return Section::Ranges;
    }
    if same_bytes(name, b"BOUNDS") {
        return Section::Bounds;
    }
    if same_bytes(name, b"ENDATA") {
        return Section::End;
    }
    if is_unsupported(name) {
        return Section::Unsupported;
    }
    Section::Unknown
}

/// The section in which a line with these fields stands, after a line in the section.
fn section_after(section: Section, header: bool, fields: &[&[u8]]) -> Section
    ensures { result ≡ (if header then section_named (first_word (words fields.now)) else section) }
{
    if !header {
        return section;
    }
    section_named(word_at(fields, 0))
}

/// Whether a line with these fields begins its section.
pub(crate) fn is_header(line: &[u8], fields: &[&[u8]]) -> bool
    requires { words fields.now ≡ kept_fields line.now }
    ensures { result ≡ is_header line.now }
{
    !begins_blank(line) && !fields.is_empty()
}

/// The record of line n with its fields, after a line in the section.
pub(crate) fn record_of<'f, 'a>(
    n: u64,
    section: Section,
    line: &[u8],
    fields: &'f [&'a [u8]],
) -> Record<'f, 'a>
    requires { words fields.now ≡ kept_fields line.now }
    ensures { result ≡ record_of n (section_after section line.now) line.now }
{
    let header = is_header(line, fields);
    Record {
        line: n,
        length: line.len(),
        section: section_after(section, header, fields),
        header,
        fields,
    }
}

/// Whether the record has fields.
pub(crate) fn is_kept(r: &Record) -> bool
    ensures { result ≡ is_kept r.now }
{
    !r.fields().is_empty()
}
