//! Texts that are written or only measured.

ghost use Rattle.std.specs.Prelude.{◌≡◌};
ghost use Rattle.cgl_prooftext.specs.TextOutput.{Longer};

use cgl_text::Builder;
use std::alloc::Global;

/// A text that grows by pieces: its length, which stays at the end of u64 once it reaches it, and its bytes where they
/// are kept.
#[derive(Drop)]
pub(crate) struct Output {
    pub(crate) len: u64,
    pub(crate) bytes: Option<Builder>,
}

impl Output {
    /// A text whose bytes are not kept. It takes no memory.
    pub(crate) fn counting() -> Output
        ensures { result.len ≡ 0 }
    {
        Output {
            len: 0,
            bytes: None,
        }
    }

    /// Puts a piece behind the text.
    pub(crate) fn append(&mut self, piece: &[u8])
        ensures { Longer piece.now self.old self.new }
    {
        self.len = self.len.saturating_add(piece.len() as u64);
        if let Some(bytes) = &mut self.bytes {
            bytes.append(piece);
        }
    }
}
