//! What the bounds come to by the numbers of the columns.

ghost use Rattle.std.specs.Prelude.{◌≡◌, ◌∷◌, ◌++◌, ◌&&◌, [], List, None, OnErr, OnOk, Some, bytes_eq, false, if◌then◌else◌, map, not, position, slice_get, true, unwrap_or};
ghost use Rattle.cgl_num.specs.NumberText.{Word};
ghost use Rattle.cgl_text.specs.Text.{is_one_of};
ghost use Rattle.cgl_decode.specs.declared.kinds.Section.TheVariants.{Bounds};
ghost use Rattle.cgl_decode.specs.Models.{is_below_zero, is_upper};
ghost use Rattle.cgl_decode.specs.Sections.{Bound as Said, bound_in, same_set, set_in};
ghost use Rattle.cgl_mps.specs.Carried.{ReadBounds, after_bound, counting_set};
ghost use Rattle.cgl_mps.specs.Tables.{AreBounds, StandOnce, bounds_on, column_bounds};

use crate::bound::Bound;
use crate::bounds::{is_below_zero, is_integer, is_upper, lower_by, upper_by, value_in, zero};
use crate::first_set::FirstSet;
use crate::record::Record;
use crate::sections::{bound_in, set_in};
use cgl_decode::{BoundKind, Section};
use cgl_num::{Dec, Memory};
use cgl_text::NameTable;
use std::alloc::Global;
use std::marker::Model;

/// What the bounds on a column come to.
#[derive(Clone, Copy)]
pub(crate) struct ColumnBounds {
    /// The lower bound, where it is finite.
    pub(crate) lower: Option<Dec>,
    /// The upper bound, where it is finite.
    pub(crate) upper: Option<Dec>,
    /// Whether one of them makes the column integer.
    pub(crate) integer: bool,
    /// Whether one of them sets the lower bound.
    pub(crate) is_set: bool,
}

impl ColumnBounds {
    /// Of no bounds, with the lower bound that holds then.
    fn from_lower(lower: Option<Dec>) -> ColumnBounds
        ensures { result ≡ record { lower = lower; upper = None; integer = false; is_set = false } }
    {
        ColumnBounds {
            lower,
            upper: None,
            integer: false,
            is_set: false,
        }
    }

    /// The lower bound after a bound of this kind and value that does not set it.
    fn lower_unset(self, kind: BoundKind, value: Option<Dec>) -> Option<Dec>
        ensures { result
            ≡ (if (is_upper kind && is_below_zero value) && not self.is_set then None else self.lower) }
    {
        if is_upper(kind) && is_below_zero(value) && !self.is_set {
            return None;
        }
        self.lower
    }

    /// With one bound more.
    fn with(self, bound: &Bound) -> ColumnBounds
        ensures { (bounds : List Said) → self ≡ column_bounds bounds
            → result ≡ column_bounds (bounds ++ bound.now ∷ []) }
    {
        let value = value_in(bound);
        let lower = lower_by(bound.kind, value);
        ColumnBounds {
            lower: lower.unwrap_or(self.lower_unset(bound.kind, value)),
            upper: upper_by(bound.kind, value).unwrap_or(self.upper),
            integer: self.integer || is_integer(bound.kind),
            is_set: self.is_set || lower.is_some(),
        }
    }
}

/// The set that counts, and what the bounds on each column come to.
#[derive(Drop)]
pub(crate) struct BoundTable {
    set: FirstSet,
    columns: Vec<ColumnBounds>,
}

impl Model for BoundTable {
    ghost use Rattle.cgl_mps.specs.Tables.{BoundTable as Said};

    ghost Value = { Said };

    ghost view = { λ it. record { set = it.set; columns = it.columns.items } };
}

impl BoundTable {
    /// Of no lines and no columns.
    pub(crate) fn new(alloc: Global) -> BoundTable
        ensures { AreBounds [] (record { set = None; bounds = [] }) result }
    {
        BoundTable {
            set: FirstSet::new(),
            columns: Vec::new(alloc),
        }
    }

    /// Takes in a new column, which no line names.
    pub(crate) fn add_column(&mut self) -> Result<(), Memory>
        ensures ok { OnOk result ((names : List Word) (read : ReadBounds) (name : Word)
            → AreBounds names read self.old → is_one_of names name ≡ false
            → AreBounds (names ++ name ∷ []) read self.new) }
        ensures err { OnErr result (self.new ≡ self.old) }
    {
        let none = ColumnBounds::from_lower(Some(zero()));
        let Ok(()) = self.columns.push(none) else {
            return Err(Memory);
        };
        Ok(())
    }

    /// Whether a line of BOUNDS counts behind these.
    pub(crate) fn counts(&self, r: &Record) -> bool
        ensures { result
            ≡ same_set (counting_set self.now.set (set_in Bounds r.now)) (set_in Bounds r.now) }
    {
        self.set.counts(set_in(Section::Bounds, r))
    }

    /// What the bounds on the column at the place come to.
    pub(crate) fn at(&self, place: usize) -> ColumnBounds
        ensures { result ≡ unwrap_or (slice_get self.now.columns place) (column_bounds []) }
    {
        match self.columns.get(place) {
            Some(bounds) => *bounds,
            None => ColumnBounds::from_lower(Some(zero())),
        }
    }

    /// Takes in a bound on one of the columns.
    fn put(&mut self, names: &NameTable, bound: &Bound)
        ensures set { self.new.set ≡ self.old.set }
        ensures columns { (bounds : List Said)
            → StandOnce names.now → is_one_of names.now bound.now.column ≡ true
            → self.old.columns ≡ map (λ name. column_bounds (bounds_on bounds name)) names.now
            → self.new.columns ≡ map (λ name. column_bounds (bounds_on (bounds ++ bound.now ∷ []) name)) names.now }
    {
        let Some(place) = names.find(bound.column) else {
            return;
        };
        let Some(found) = self.columns.get_mut(place) else {
            return;
        };
        *found = found.with(bound);
    }

    /// Takes in one more line of BOUNDS. Where it counts and says a bound, this is on one of the
    /// columns. Want of memory leaves all as it was.
    pub(crate) fn add(&mut self, alloc: Global, names: &NameTable, r: &Record) -> Result<(), Memory>
        ensures ok { OnOk result ((read : ReadBounds)
            → StandOnce names.now → AreBounds names.now read self.old
            → (same_set (counting_set read.set (set_in Bounds r.now)) (set_in Bounds r.now) ≡ true
            → (b : Said) → bound_in r.now.fields ≡ Some b → is_one_of names.now b.column ≡ true)
            → AreBounds names.now (after_bound read r.now) self.new) }
        ensures err { OnErr result (self.new ≡ self.old) }
    {
        let own = set_in(Section::Bounds, r);
        self.set.add(alloc, own)?;
        if !self.set.counts(own) {
            return Ok(());
        }
        if let Some(bound) = bound_in(r.fields()) {
            self.put(names, &bound);
        }
        Ok(())
    }
}
