//! Names as keys of a table, which are hashed as one piece, where a list of bytes is hashed byte by byte.

ghost use Rattle.std.specs.Prelude.{◌≡◌, ◌∷◌, [], bytes_eq};
ghost use Rattle.std.proofs.Common.{ap};
ghost use Rattle.std.specs.Cmp.{on_equiv, on_per, partial_equiv_from_equiv};
ghost use Rattle.std.specs.Cmp.Lexicographic.{bytes_decides, nat_list_eq_equiv};

use indexmap::Equivalent;
use std::hash::{Hash, Hasher};
use std::marker::Model;

/// A name that owns its bytes. Contracts see it as these.
#[derive(Drop)]
pub(crate) struct NameKey {
    bytes: Vec<u8>,
}

impl Model for NameKey {
    ghost use Rattle.cgl_num.specs.NumberText.{Word};

    ghost Value = { Word };

    ghost view = { λ it. it.bytes.items };
}

impl NameKey {
    pub(crate) fn new(bytes: Vec<u8>) -> NameKey
        ensures { result ≡ bytes.items }
    {
        NameKey { bytes }
    }

    pub(crate) fn as_slice(&self) -> &[u8]
        ensures { result.now ≡ self.now }
    {
        self.bytes.as_slice()
    }

    pub(crate) fn into_bytes(self) -> Vec<u8>
        ensures { result.items ≡ self }
    {
        self.bytes
    }
}

impl PartialEq for NameKey {
    ghost eq = { bytes_eq };

    ghost laws = { partial_equiv_from_equiv nat_list_eq_equiv };

    fn eq(&self, other: &NameKey) -> bool {
        self.as_slice() == other.as_slice()
    }
}

impl Eq for NameKey {
    ghost laws = { nat_list_eq_equiv };
}

impl Hash for NameKey {
    ghost hash_input = { λ name. name ∷ [] };

    ghost respects_eq = { λ a b same. ap (λ name. name ∷ []) ((bytes_decides a b).0 same) };

    fn hash<H: Hasher>(&self, state: &mut H) {
        state.write(self.as_slice());
    }
}

/// A name by which a key is looked up, and which owns nothing.
#[derive(Clone, Copy)]
pub(crate) struct AskedName<'a> {
    bytes: &'a [u8],
}

impl<'a> AskedName<'a> {
    pub(crate) fn new(bytes: &'a [u8]) -> AskedName<'a>
        ensures { result.bytes ≡ bytes.entry }
    {
        AskedName { bytes }
    }
}

impl<'a> PartialEq for AskedName<'a> {
    ghost eq = { λ a b. bytes_eq a.bytes.now b.bytes.now };

    ghost laws = { on_per (λ a. a.bytes.now) (partial_equiv_from_equiv nat_list_eq_equiv) };

    fn eq(&self, other: &AskedName) -> bool {
        self.bytes == other.bytes
    }
}

impl<'a> Eq for AskedName<'a> {
    ghost laws = { on_equiv (λ a. a.bytes.now) nat_list_eq_equiv };
}

impl<'a> Hash for AskedName<'a> {
    ghost hash_input = { λ a. a.bytes.now ∷ [] };

    ghost respects_eq = { λ a b same. ap (λ name. name ∷ []) ((bytes_decides a.bytes.now b.bytes.now).0 same) };

    fn hash<H: Hasher>(&self, state: &mut H) {
        state.write(self.bytes);
    }
}

impl<'a> Equivalent<NameKey> for AskedName<'a> {
    ghost equivalent = { λ a name. bytes_eq a.bytes.now name };

    ghost respects_hash = { λ a name same. ap (λ bytes. bytes ∷ []) ((bytes_decides a.bytes.now name).0 same) };

    ghost respects_eq = { λ a x y. nat_list_eq_equiv.congr a.bytes.now x y };

    fn equivalent(&self, key: &NameKey) -> bool {
        self.bytes == key.as_slice()
    }
}
