//! A list of names, each found by its place.

ghost use Rattle.std.specs.Prelude.{◌≡◌, ◌∷◌, ◌++◌, [], OnErr, OnOk, bytes_eq, length, position};
ghost use Rattle.cgl_text.specs.Text.{is_one_of};
ghost use Rattle.cgl_text.specs.Seen.{words};

use cgl_num::Memory;
use indexmap::IndexMap;
use std::alloc::Global;
use std::marker::Model;

/// Names in the order in which they came, each found by its place. A name may come again. Contracts see them as a list.
#[derive(Drop)]
pub struct Names<'a> {
    names: Vec<&'a [u8]>,
    /// The first place of each name.
    places: IndexMap<&'a [u8], usize>,
}

impl<'a> Model for Names<'a> {
    ghost use Rattle.std.specs.Prelude.{List};
    ghost use Rattle.cgl_num.specs.NumberText.{Word};
    ghost use Rattle.cgl_text.specs.Places.{ArePlaces};
    ghost use Rattle.cgl_text.specs.Seen.{words};

    ghost Value = { List Word };

    ghost view = { λ it. words it.names.items };

    ghost invariant = { λ it. ArePlaces (words it.names.items) it.places };
}

impl<'a> Names<'a> {
    /// No names.
    pub fn new(alloc: Global) -> Names<'a>
        ensures { result ≡ [] }
    {
        Names {
            names: Vec::new(alloc),
            places: IndexMap::new(alloc),
        }
    }

    /// Takes a name in behind the others.
    ///
    /// # Errors
    ///
    /// `Memory` where memory for one name more is refused: then the names are as before.
    pub fn push(&mut self, name: &'a [u8]) -> Result<(), Memory>
        ensures ok { OnOk result (self.new ≡ self.old ++ name.now ∷ []) }
        ensures err { OnErr result (self.new ≡ self.old) }
    {
        let place = self.names.len();
        let Ok(()) = self.names.push(name) else {
            return Err(Memory);
        };
        if self.places.contains_key(name) {
            return Ok(());
        }
        let Ok(_) = self.places.insert(name, place) else {
            self.names.pop();
            return Err(Memory);
        };
        Ok(())
    }

    /// The count of the names.
    pub fn len(&self) -> usize
        ensures { result ≡ length self.now }
    {
        self.names.len()
    }

    /// The first place of the name, from 0.
    pub fn find(&self, name: &[u8]) -> Option<usize>
        ensures { result ≡ position (bytes_eq name.now) self.now }
    {
        self.places.get(name).copied()
    }

    /// Whether the name is one of these.
    pub fn has(&self, name: &[u8]) -> bool
        ensures { result ≡ is_one_of self.now name.now }
    {
        self.find(name).is_some()
    }
}
