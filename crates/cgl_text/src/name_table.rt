//! A table of names that owns their bytes.

ghost use Rattle.std.specs.Prelude.{◌≡◌, ◌∷◌, ◌++◌, [], false, if◌then◌else◌, not, IfOk, OnErr, OnOk, Some, bytes_eq, length, option_map, position, slice_get};
ghost use Rattle.cgl_text.specs.Text.{is_one_of};
ghost use Rattle.cgl_text.specs.Seen.{owned_words, word};

use crate::name_key::{AskedName, NameKey};
use cgl_num::Memory;
use indexmap::IndexSet;
use std::alloc::Global;
use std::marker::Model;

/// Different names in the order in which they came, each found by its place, with bytes of their own. Contracts see them
/// as a list.
#[derive(Drop)]
pub struct NameTable {
    names: IndexSet<NameKey>,
}

impl Model for NameTable {
    ghost use Rattle.std.specs.Prelude.{List};
    ghost use Rattle.cgl_num.specs.NumberText.{Word};

    ghost Value = { List Word };

    ghost view = { λ it. it.names.keys };
}

impl NameTable {
    /// No names.
    pub fn new(alloc: Global) -> NameTable
        ensures { result ≡ [] }
    {
        NameTable {
            names: IndexSet::new(alloc),
        }
    }

    /// Takes a copy of a new name in behind the others.
    ///
    /// # Errors
    ///
    /// `Memory` where memory for one name more is refused: then the names are as before.
    pub fn push(&mut self, name: &[u8]) -> Result<(), Memory>
        requires { is_one_of self.old name.now ≡ false }
        ensures ok { OnOk result (self.new ≡ self.old ++ name.now ∷ []) }
        ensures err { OnErr result (self.new ≡ self.old) }
    {
        self.find_or_push(name)?;
        Ok(())
    }

    /// The place of the name, and whether it is new: then a copy of it is taken in behind the others.
    ///
    /// # Errors
    ///
    /// `Memory` where memory for one name more is refused: then the names are as before.
    pub fn find_or_push(&mut self, name: &[u8]) -> Result<(usize, bool), Memory>
        ensures names { OnOk result (self.new ≡ (if is_one_of self.old name.now then self.old else self.old ++ name.now ∷ [])) }
        ensures place { IfOk result (λ found. position (bytes_eq name.now) self.new ≡ Some found.0) }
        ensures is_new { IfOk result (λ found. found.1 ≡ not (is_one_of self.old name.now)) }
        ensures err { OnErr result (self.new ≡ self.old) }
    {
        let Ok(own) = name.to_vec(*self.names.allocator()) else {
            return Err(Memory);
        };
        let Ok(found) = self.names.insert_full(NameKey::new(own)) else {
            return Err(Memory);
        };
        Ok(found)
    }

    /// The count of the names.
    pub fn len(&self) -> usize
        ensures { result ≡ length self.now }
    {
        self.names.len()
    }

    /// The place of the name, from 0.
    pub fn find(&self, name: &[u8]) -> Option<usize>
        ensures { result ≡ position (bytes_eq name.now) self.now }
    {
        self.names.get_index_of(AskedName::new(name))
    }

    /// Whether the name is one of these.
    pub fn has(&self, name: &[u8]) -> bool
        ensures { result ≡ is_one_of self.now name.now }
    {
        self.names.contains(AskedName::new(name))
    }

    /// The name at a place.
    pub fn get(&self, place: usize) -> Option<&[u8]>
        ensures { option_map word result ≡ slice_get self.now place }
    {
        match self.names.get_index(place) {
            Some(name) => Some(name.as_slice()),
            None => None,
        }
    }

    /// The names in order, none of them copied.
    ///
    /// # Errors
    ///
    /// `Memory` where memory for the list, without the bytes of the names, is refused.
    pub fn into_names(self, alloc: Global) -> Result<Vec<Vec<u8>>, Memory>
        ensures { IfOk result (λ names. owned_words names.items ≡ self) }
    {
        let NameTable { names } = self;
        let Ok(names) = names.into_iter().map(NameKey::into_bytes).collect(alloc) else {
            return Err(Memory);
        };
        Ok(names)
    }
}
