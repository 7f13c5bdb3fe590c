//! A text that grows by pieces.

ghost use Rattle.std.specs.Prelude.{◌≡◌, [], true, false, IfErr, IfOk};
ghost use Rattle.cgl_text.specs.Growth.{Grows};

use cgl_num::Memory;
use std::alloc::Global;
use std::marker::Model;

/// A text that grows by pieces. Where memory is refused for one, `finish` says so, and what was built counts for
/// nothing. Contracts see what it grew by, and whether a piece was refused.
#[derive(Drop)]
pub struct Builder {
    bytes: Vec<u8>,
    refused: bool,
}

impl Model for Builder {
    ghost use Rattle.cgl_text.specs.Growth.{Grown};

    ghost Value = { Grown };

    ghost view = { λ it. record { items = it.bytes.items; refused = it.refused } };
}

impl Builder {
    /// An empty text.
    pub fn new(alloc: Global) -> Builder
        ensures empty { result.items ≡ [] }
        ensures whole { result.refused ≡ false }
    {
        Builder {
            bytes: Vec::new(alloc),
            refused: false,
        }
    }

    /// Puts a piece behind the text.
    pub fn append(&mut self, piece: &[u8])
        ensures { Grows piece.now self.old self.new }
    {
        if self.bytes.extend_from_slice(piece).is_err() {
            self.refused = true;
        }
    }

    /// The text.
    ///
    /// # Errors
    ///
    /// `Memory` where memory was refused for a piece.
    pub fn finish(self) -> Result<Vec<u8>, Memory>
        ensures text { IfOk result (λ bytes. (self.refused ≡ false) × (bytes.items ≡ self.items)) }
        ensures refused { IfErr result (λ _. self.refused ≡ true) }
    {
        let Builder { bytes, refused } = self;
        if refused {
            return Err(Memory);
        }
        Ok(bytes)
    }
}
