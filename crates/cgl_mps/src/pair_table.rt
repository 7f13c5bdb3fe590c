//! The values of RHS or of RANGES by the numbers of the rows.

ghost use Rattle.std.specs.Prelude.{◌≡◌, ◌∷◌, ◌++◌, [], List, None, OnErr, OnOk, Some, bytes_eq, false, is_some, map, slice_get, true, unwrap_or};
ghost use Rattle.cgl_num.specs.NumberText.{Word};
ghost use Rattle.cgl_text.specs.Seen.{words};
ghost use Rattle.cgl_text.specs.Text.{is_one_of};
ghost use Rattle.cgl_decode.specs.Models.{value_at};
ghost use Rattle.cgl_decode.specs.Sections.{Pair, pairs_of, same_set, set_in, set_pairs};
ghost use Rattle.cgl_mps.specs.Carried.{ReadPairs, after_pairs, counting_set};
ghost use Rattle.cgl_mps.specs.Tables.{AreKnown, ArePairs, StandOnce};

use crate::first_set::FirstSet;
use crate::numbers::number;
use crate::record::Record;
use crate::sections::{set_fields, set_in};
use cgl_decode::Section;
use cgl_num::{Dec, Memory};
use cgl_text::NameTable;
use std::alloc::Global;
use std::marker::Model;

/// The set that counts, and the value of each row, where a pair names it.
#[derive(Drop)]
pub(crate) struct PairTable {
    set: FirstSet,
    values: Vec<Option<Dec>>,
}

impl Model for PairTable {
    ghost use Rattle.cgl_mps.specs.Tables.{PairTable as Said};

    ghost Value = { Said };

    ghost view = { λ it. record { set = it.set; values = it.values.items } };
}

impl PairTable {
    /// Of no lines and no rows.
    pub(crate) fn new(alloc: Global) -> PairTable
        ensures { ArePairs [] (record { set = None; pairs = [] }) result }
    {
        PairTable {
            set: FirstSet::new(),
            values: Vec::new(alloc),
        }
    }

    /// Takes in a new row, which no line names.
    pub(crate) fn add_row(&mut self) -> Result<(), Memory>
        ensures ok { OnOk result ((rows : List Word) (read : ReadPairs) (name : Word)
            → ArePairs rows read self.old → is_one_of rows name ≡ false
            → ArePairs (rows ++ name ∷ []) read self.new) }
        ensures err { OnErr result (self.new ≡ self.old) }
    {
        let Ok(()) = self.values.push(None) else {
            return Err(Memory);
        };
        Ok(())
    }

    /// Whether a line of the section counts behind these.
    pub(crate) fn counts(&self, section: Section, r: &Record) -> bool
        ensures { result
            ≡ same_set (counting_set self.now.set (set_in section r.now)) (set_in section r.now) }
    {
        self.set.counts(set_in(section, r))
    }

    /// The value of the row at the place, where a pair names it.
    pub(crate) fn value(&self, place: usize) -> Option<Dec>
        ensures { result ≡ unwrap_or (slice_get self.now.values place) None }
    {
        match self.values.get(place) {
            Some(value) => *value,
            None => None,
        }
    }

    /// Whether a pair names the row at the place.
    pub(crate) fn has(&self, place: usize) -> bool
        ensures { result ≡ is_some (unwrap_or (slice_get self.now.values place) None) }
    {
        self.value(place).is_some()
    }

    /// Takes in the value of the row, unless it has one.
    fn put(&mut self, rows: &NameTable, row: &[u8], value: &[u8])
        ensures set { self.new.set ≡ self.old.set }
        ensures values { (pairs : List Pair)
            → StandOnce rows.now → AreKnown rows.now pairs → is_one_of rows.now row.now ≡ true
            → self.old.values ≡ map (value_at pairs) rows.now
            → self.new.values ≡ map (value_at (pairs ++ (row.now, value.now) ∷ [])) rows.now }
    {
        let Some(place) = rows.find(row) else {
            return;
        };
        let Some(found) = self.values.get_mut(place) else {
            return;
        };
        if found.is_none() {
            *found = number(value);
        }
    }

    /// Takes in the pairs that the fields are.
    fn put_fields(&mut self, rows: &NameTable, fields: &[&[u8]])
        ensures set { self.new.set ≡ self.old.set }
        ensures values { (pairs : List Pair)
            → StandOnce rows.now → AreKnown rows.now pairs → AreKnown rows.now (pairs_of (words fields.now))
            → self.old.values ≡ map (value_at pairs) rows.now
            → self.new.values ≡ map (value_at (pairs ++ pairs_of (words fields.now))) rows.now }
    {
        let [row, value, others @ ..] = fields else {
            return;
        };
        self.put(rows, row, value);
        self.put_fields(rows, others);
    }

    /// Takes in one more line of the section. Where it counts, its pairs name rows and have numbers.
    /// The first pair of a row counts. Want of memory leaves all as it was.
    pub(crate) fn add(
        &mut self,
        alloc: Global,
        section: Section,
        rows: &NameTable,
        r: &Record,
    ) -> Result<(), Memory>
        ensures ok { OnOk result ((read : ReadPairs)
            → StandOnce rows.now → ArePairs rows.now read self.old
            → (same_set (counting_set read.set (set_in section r.now)) (set_in section r.now) ≡ true
            → AreKnown rows.now (set_pairs r.now))
            → ArePairs rows.now (after_pairs section read r.now) self.new) }
        ensures err { OnErr result (self.new ≡ self.old) }
    {
        let own = set_in(section, r);
        self.set.add(alloc, own)?;
        if self.set.counts(own) {
            self.put_fields(rows, set_fields(r));
        }
        Ok(())
    }
}
