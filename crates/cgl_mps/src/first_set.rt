//! The set of a section's first line: the one that counts.

ghost use Rattle.std.specs.Prelude.{◌≡◌, None, Some, OnErr, OnOk, option_map};
ghost use Rattle.cgl_decode.specs.Sections.{same_set};
ghost use Rattle.cgl_text.specs.Seen.{word};
ghost use Rattle.cgl_mps.specs.Carried.{counting_set};

use crate::sections::same_set;
use cgl_num::Memory;
use std::alloc::Global;
use std::marker::Model;

/// The set of the first line of a section, once there is a line. A line may be in no set.
#[derive(Drop)]
pub(crate) struct FirstSet {
    set: Option<Option<Vec<u8>>>,
}

impl Model for FirstSet {
    ghost use Rattle.std.specs.Prelude.{Option, option_map};
    ghost use Rattle.cgl_num.specs.NumberText.{Word};

    ghost Value = { Option (Option Word) };

    ghost view = { λ it. option_map (option_map (λ name. name.items)) it.set };
}

impl FirstSet {
    /// Before the first line.
    pub(crate) fn new() -> FirstSet
        ensures { result ≡ None }
    {
        FirstSet { set: None }
    }

    /// Whether a line in this set, or in none, counts.
    pub(crate) fn counts(&self, own: Option<&[u8]>) -> bool
        ensures { result
            ≡ same_set (counting_set self.now (option_map word own.entry)) (option_map word own.entry) }
    {
        match &self.set {
            Some(Some(first)) => same_set(Some(first.as_slice()), own),
            Some(None) => own.is_none(),
            None => true,
        }
    }

    /// Takes in the set of one more line. Want of memory leaves it as it was.
    pub(crate) fn add(&mut self, alloc: Global, own: Option<&[u8]>) -> Result<(), Memory>
        ensures ok { OnOk result (self.new ≡ Some (counting_set self.old (option_map word own.entry))) }
        ensures err { OnErr result (self.new ≡ self.old) }
    {
        if self.set.is_some() {
            return Ok(());
        }
        let Some(own) = own else {
            self.set = Some(None);
            return Ok(());
        };
        let Ok(own) = own.to_vec(alloc) else {
            return Err(Memory);
        };
        self.set = Some(Some(own));
        Ok(())
    }
}
