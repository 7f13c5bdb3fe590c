//! One line of the bytes that are read ahead.
ghost use Rattle.std.specs.Prelude.{◌≡◌, ◌+◌, ◌≤◌, ◌<◌, ◌++◌, length, slice_index, IfOk, OnErr, OnOk};
ghost use Rattle.cgl_text.specs.Text.{most_bytes};
ghost use Rattle.cgl_outside.specs.Line.{HasNoEnd};
ghost use Rattle.cgl_outside.specs.Turns.{TurnSays};

use crate::ahead::Ahead;
use cgl_num::Memory;
use cgl_text::MOST_BYTES;
use memchr::memchr;

/// What ends a line.
const NEWLINE: u8 = b'\n';

/// What stands behind the bytes that were handed out.
#[derive(Clone, Copy)]
pub(crate) enum Found {
    /// A line, and whether an LF ends it.
    Line(bool),
    /// A line that is longer than the reader takes.
    TooLong,
    /// A line with the first byte past the greatest file.
    Over,
    /// No line.
    End,
}

/// The place of the first LF, or the length.
fn line_end(bytes: &[u8]) -> usize
    ensures within { result ≤ length bytes.now }
    ensures before { HasNoEnd bytes.now result }
    ensures at { result < length bytes.now → slice_index bytes.now result ≡ 10 }
{
    memchr(NEWLINE, bytes).unwrap_or(bytes.len())
}

/// The line with the bytes behind it.
fn keep(line: &mut Vec<u8>, bytes: &[u8]) -> Result<(), Memory>
    ensures { OnOk result (line.new.items ≡ line.old.items ++ bytes.now) }
{
    let Ok(()) = line.extend_from_slice(bytes) else {
        return Err(Memory);
    };
    Ok(())
}

/// Takes the bytes up to the end of the line, or all that are ahead where the line goes on: then
/// nothing was found yet. The line has `size` bytes before.
pub(crate) fn take_turn(
    ahead: &mut Ahead,
    line: &mut Vec<u8>,
    size: u64,
    longest: u64,
) -> Result<Option<Found>, Memory>
    requires done { ahead.old.done ≤ most_bytes }
    requires size { size ≤ most_bytes }
    ensures name { ahead.new.name ≡ ahead.old.name }
    ensures asks { OnErr result (0 < length ahead.old.ahead) }
    ensures says { IfOk result (TurnSays longest size ahead.old ahead.new line.old.items line.new.items) }
{
    let bytes = ahead.bytes();
    if bytes.is_empty() {
        if size == 0 {
            return Ok(Some(Found::End));
        }
        if size <= longest {
            return Ok(Some(Found::Line(false)));
        }
        return Ok(Some(Found::TooLong));
    }
    let count = bytes.len();
    let end = line_end(bytes);
    let room = MOST_BYTES as u64 - ahead.done();
    if end < count {
        if end as u64 >= room {
            return Ok(Some(Found::Over));
        }
        if size + end as u64 <= longest {
            keep(line, &bytes[..end])?;
            ahead.pass(end + 1);
            return Ok(Some(Found::Line(true)));
        }
        ahead.pass(end + 1);
        return Ok(Some(Found::TooLong));
    }
    if count as u64 > room {
        return Ok(Some(Found::Over));
    }
    if size + count as u64 <= longest {
        keep(line, bytes)?;
    }
    ahead.pass(count);
    Ok(None)
}
