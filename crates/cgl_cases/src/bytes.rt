//! Bytes in the lines of cases: `\n`, `\r` and `\t` as usual, and `\{BYTE*TIMES}` for so many times the byte of this
//! number.
ghost use Rattle.std.specs.Prelude.{◌≤◌, length, ◌^◌, IfSome};

use std::alloc::Global;

/// Puts what stands behind a backslash, up to the next one.
fn put_escape(bytes: &mut Vec<u8>, escape: &str) -> Option<()> {
    let (letter, rest) = escape.split_at_checked(1)?;
    let (code, rest) = match letter {
        "n" => ("10*1", rest),
        "r" => ("13*1", rest),
        "t" => ("9*1", rest),
        "{" => rest.split_once('}')?,
        _ => return None,
    };
    let (byte, times) = code.split_once('*')?;
    let length = bytes.len().checked_add(times.parse::<usize>().ok()?)?;
    bytes.resize(length, byte.parse::<u8>().ok()?).ok()?;
    bytes.extend_from_slice(rest.as_bytes()).ok()
}

/// Puts the bytes that a text means.
fn put_meant(bytes: &mut Vec<u8>, text: &str) -> Option<()> {
    let (plain, escapes) = text.split_once('\\').unwrap_or((text, "{0*0}"));
    bytes.extend_from_slice(plain.as_bytes()).ok()?;
    for escape in escapes.split('\\') {
        put_escape(bytes, escape)?;
    }
    Some(())
}

/// The bytes that a text means, at most 2^20.
pub fn bytes_of(alloc: Global, text: &str) -> Option<Vec<u8>>
    ensures { IfSome result (λ bytes. length bytes.items ≤ 2 ^ 20) }
{
    let mut bytes = Vec::new(alloc);
    if put_meant(&mut bytes, text).is_some() && bytes.len() <= 1 << 20 {
        Some(bytes)
    } else {
        None
    }
}
