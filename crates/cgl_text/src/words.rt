//! The fields of a line.

ghost use Rattle.std.specs.Prelude.{◌≡◌, ◌++◌, ◌<◌, ◌≤◌, ℕ, false, true, IfOk, OnOk, bytes_eq, drop, length, slice_index};
ghost use Rattle.cgl_text.specs.Text.{begins_blank, fields_of, is_blank, kept_fields};
ghost use Rattle.cgl_text.specs.Seen.{words};

use cgl_num::Memory;
use smallvec::SmallVec;
use std::alloc::Global;

/// The fields of one line. Up to five need no memory, as most lines have no more.
pub type Fields<'a> = SmallVec<&'a [u8], 5, Global>;

pub fn same_bytes(a: &[u8], b: &[u8]) -> bool
    ensures { result ≡ bytes_eq a.now b.now }
{
    a == b
}

fn is_blank(b: u8) -> bool
    ensures { result ≡ is_blank b }
{
    b == b' ' || b == b'\t' || b == b'\r'
}

/// Whether the text begins with a blank, or is empty.
pub fn begins_blank(text: &[u8]) -> bool
    ensures { result ≡ begins_blank text.now }
{
    match text {
        [] => true,
        [first, ..] => is_blank(*first),
    }
}

/// Takes in the field that ends at a place, where a blank or the line's end stands, and begins at an earlier one. Between
/// them are no blanks; where no byte is between them, there is no field.
fn push_field<'a>(
    found: &mut Fields<'a>,
    line: &'a [u8],
    start: usize,
    end: usize,
) -> Result<(), Memory>
    requires within { start ≤ end }
    requires line { end ≤ length line.now }
    requires run { (k : ℕ) → start ≤ k → k < end → is_blank (slice_index line.now k) ≡ false }
    requires ends { end < length line.now → is_blank (slice_index line.now end) ≡ true }
    ensures { OnOk result (words found.new.items ++ fields_of (drop end line.now) ≡ words found.old.items ++ fields_of (drop start line.now)) }
{
    if start < end {
        let Ok(()) = found.push(&line[start..end]) else {
            return Err(Memory);
        };
    }
    Ok(())
}

/// The fields of a line: the longest runs of bytes other than space, tab and CR.
///
/// # Errors
///
/// `Memory` where memory for more than five fields is refused.
pub fn fields(alloc: Global, line: &[u8]) -> Result<Fields<'_>, Memory>
    ensures { IfOk result (λ found. words found.items ≡ fields_of line.now) }
{
    let mut found = Fields::new(alloc);
    let mut start = 0;
    for (i, b) in line.iter().enumerate() {
        if is_blank(*b) {
            push_field(&mut found, line, start, i)?;
            start = i + 1;
        }
    }
    push_field(&mut found, line, start, line.len())?;
    Ok(found)
}

/// The fields of a line that is no comment. A comment, which begins with `*`, has none.
///
/// # Errors
///
/// `Memory` where memory for more than five fields is refused.
pub fn kept_fields(alloc: Global, line: &[u8]) -> Result<Fields<'_>, Memory>
    ensures { IfOk result (λ found. words found.items ≡ kept_fields line.now) }
{
    match line {
        [] => Ok(Fields::new(alloc)),
        [first, ..] => {
            if *first == b'*' {
                return Ok(Fields::new(alloc));
            }
            fields(alloc, line)
        }
    }
}
