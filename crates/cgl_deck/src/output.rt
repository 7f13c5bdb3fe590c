//! Texts that are written or only measured.

ghost use Rattle.std.specs.Prelude.{◌≡◌, ℕ, List, false, is_some, length};
ghost use Rattle.cgl_num.specs.Decimal.{decimal_text};
ghost use Rattle.cgl_deck.specs.DeckLength.{most};
ghost use Rattle.cgl_deck.specs.DeckOutput.{Longer};

use cgl_num::Dec;
use cgl_text::Builder;

/// A text that grows by pieces: its length, which stays at the end of u64 once it reaches it, and its bytes where they
/// are kept.
#[derive(Drop)]
pub(crate) struct Output {
    pub(crate) len: u64,
    pub(crate) bytes: Option<Builder>,
}

impl Output {
    /// A text whose bytes are not kept. It takes no memory.
    pub(crate) fn counting() -> Output
        ensures { result.len ≡ 0 }
    {
        Output {
            len: 0,
            bytes: None,
        }
    }

    /// Whether the bytes are kept.
    pub(crate) fn is_kept(&self) -> bool
        ensures { result ≡ is_some self.now.bytes }
    {
        self.bytes.is_some()
    }

    /// Measures a piece of this length, where bytes are not kept.
    pub(crate) fn measure(&mut self, len: u64)
        requires { is_some self.old.bytes ≡ false }
        ensures { (piece : List ℕ) → len ≡ most (length piece) → Longer piece self.old self.new }
    {
        self.len = self.len.saturating_add(len);
    }

    /// Puts a piece behind the text.
    pub(crate) fn append(&mut self, piece: &[u8])
        ensures { Longer piece.now self.old self.new }
    {
        self.len = self.len.saturating_add(piece.len() as u64);
        if let Some(bytes) = &mut self.bytes {
            bytes.append(piece);
        }
    }

    /// Puts the text of a number behind the text. It is only measured where bytes are not kept.
    pub(crate) fn append_number(&mut self, number: Dec)
        ensures { Longer (decimal_text number) self.old self.new }
    {
        if self.bytes.is_none() {
            self.len = self.len.saturating_add(number.text_len() as u64);
            return;
        }
        let mut digits = [0; 48];
        let len = number.digits(&mut digits);
        self.append(&digits[..len]);
    }
}
