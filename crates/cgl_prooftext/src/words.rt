ghost use Rattle.std.specs.Prelude.{◌≡◌, ◌≤◌, length};
ghost use Rattle.std.specs.List.{position_or_len};
ghost use Rattle.cgl_prooftext.specs.LineResult.{is_space, word_in};

/// The place of the first space, or the length where there is none.
pub(crate) fn space_place(text: &[u8]) -> usize
    ensures place { result ≡ position_or_len is_space text.now }
    ensures within { result ≤ length text.now }
{
    for (i, byte) in text.iter().enumerate() {
        if *byte == b' ' {
            return i;
        }
    }
    text.len()
}

/// The first field of a line, which ends at the first space.
pub(crate) fn word_of(line: &[u8]) -> &[u8]
    ensures { result.now ≡ word_in line.now }
{
    &line[..space_place(line)]
}
