//! What is carried from line to line of a deck.

ghost use Rattle.std.specs.Prelude.{◌≡◌, ◌∷◌, ◌++◌, [], IfOk, List, None, OnOk, false, length, nat_lt, true};
ghost use Rattle.cgl_text.specs.Conditions.{first_kind};
ghost use Rattle.cgl_decode.specs.declared.kinds.Section.TheVariants.{Bounds, Columns, Ranges, Rhs, Rows};
ghost use Rattle.cgl_decode.specs.Decode.{deck_limits};
ghost use Rattle.cgl_decode.specs.Faults.{conditions};
ghost use Rattle.cgl_decode.specs.Records.{Record as Line, is_kept};
ghost use Rattle.cgl_decode.specs.Sections.{entry_pairs};
ghost use Rattle.cgl_mps.specs.Tables.{IsResolved, resolved_all};
ghost use Rattle.cgl_mps.specs.State.{AddsRow, IsNextRow, Means, SameHead, SameTables, Stands, TakesHead, TakesTables, has_row, pairs_in};

use crate::bound_table::BoundTable;
use crate::column_table::ColumnTable;
use crate::judge::line_fault;
use crate::made::{columns_of, rows_of};
use crate::pair_table::PairTable;
use crate::record::Record;
use crate::resolve::Resolved;
use crate::sections::{name_in, row_in, says_maximise, sense_in};
use cgl_decode::Section;
use cgl_model::{Model as Mip, RowKind, Seq};
use cgl_num::Memory;
use cgl_text::NameTable;
use std::alloc::Global;
use std::marker::Model;

/// The sections of the headers so far, the model's name, whether a line said the sense and whether one said to maximise,
/// the rows' names and kinds, and the tables. None of it is a line of the deck.
#[derive(Drop)]
pub(crate) struct State {
    headers: Vec<Section>,
    name: Vec<u8>,
    is_sense_given: bool,
    maximise: bool,
    rows: NameTable,
    kinds: Vec<RowKind>,
    columns: ColumnTable,
    rhs: PairTable,
    ranges: PairTable,
    bounds: BoundTable,
}

impl Model for State {
    ghost use Rattle.cgl_mps.specs.State.{State as Carried};

    ghost Value = { Carried };

    ghost view = { λ it. record { headers = it.headers.items; name = it.name.items; is_sense_given = it.is_sense_given; maximise = it.maximise; rows = it.rows; kinds = it.kinds.items; columns = it.columns; rhs = it.rhs; ranges = it.ranges; bounds = it.bounds } };
}

impl State {
    /// Before the first line.
    pub(crate) fn new(alloc: Global) -> State
        ensures { Stands [] result }
    {
        State {
            headers: Vec::new(alloc),
            name: Vec::new(alloc),
            is_sense_given: false,
            maximise: false,
            rows: NameTable::new(alloc),
            kinds: Vec::new(alloc),
            columns: ColumnTable::new(alloc),
            rhs: PairTable::new(alloc),
            ranges: PairTable::new(alloc),
            bounds: BoundTable::new(alloc),
        }
    }

    /// The sections of the headers.
    pub(crate) fn headers(&self) -> &[Section]
        ensures { result.now ≡ self.now.headers }
    {
        self.headers.as_slice()
    }

    /// Whether a line said the sense.
    pub(crate) fn is_sense_given(&self) -> bool
        ensures { result ≡ self.now.is_sense_given }
    {
        self.is_sense_given
    }

    /// The names of the rows.
    pub(crate) fn rows(&self) -> &NameTable
        ensures { result.now ≡ self.now.rows }
    {
        &self.rows
    }

    pub(crate) fn columns(&self) -> &ColumnTable
        ensures { result.now ≡ self.now.columns }
    {
        &self.columns
    }

    /// The values of RANGES, and for each other section those of RHS.
    pub(crate) fn pairs(&self, section: Section) -> &PairTable
        ensures { result.now ≡ pairs_in section self.now }
    {
        match section {
            Section::Ranges => &self.ranges,
            _ => &self.rhs,
        }
    }

    pub(crate) fn bounds(&self) -> &BoundTable
        ensures { result.now ≡ self.now.bounds }
    {
        &self.bounds
    }

    /// The kind of fault that the line is behind the lines so far, if it is one and ends within the limit on bytes.
    pub(crate) fn fault(&self, r: &Record, pairs: &[Resolved]) -> Option<u8>
        requires { IsResolved self.now.rows r.now pairs.now }
        ensures { (before : List Line) → Stands before self.now
            → result ≡ first_kind ((nat_lt 4096 r.now.bytes, 11) ∷ conditions deck_limits before r.now) }
    {
        line_fault(self, r, pairs)
    }

    /// Takes in what the line says of all but the tables.
    fn take_head(&mut self, alloc: Global, r: &Record) -> Result<(), Memory>
        ensures head { OnOk result (TakesHead r.now self.old self.new) }
        ensures tables { OnOk result (SameTables self.old self.new) }
    {
        if r.is_header() {
            let Ok(()) = self.headers.push(r.section()) else {
                return Err(Memory);
            };
        }
        if let Some(name) = name_in(r) {
            let Ok(name) = name.to_vec(alloc) else {
                return Err(Memory);
            };
            self.name = name;
        }
        if let Some(sense) = sense_in(r) {
            self.is_sense_given = true;
            self.maximise = self.maximise || says_maximise(sense);
        }
        Ok(())
    }

    /// Takes in a new row.
    fn add_row(&mut self, kind: RowKind, name: &[u8]) -> Result<(), Memory>
        ensures head { OnOk result (SameHead self.old self.new) }
        ensures adds { OnOk result (has_row self.old name.now ≡ false → AddsRow kind name.now self.old self.new) }
    {
        self.rows.find_or_push(name)?;
        let Ok(()) = self.kinds.push(kind) else {
            return Err(Memory);
        };
        self.columns.add_row()?;
        self.rhs.add_row()?;
        self.ranges.add_row()
    }

    /// Takes in a data line of COLUMNS.
    fn add_entries(&mut self, alloc: Global, r: &Record, pairs: &[Resolved]) -> Result<(), Memory>
        requires { pairs.now ≡ resolved_all self.old.rows (entry_pairs r.now) }
        ensures head { OnOk result (SameHead self.old self.new) }
        ensures tables { OnOk result (r.now.header ≡ false → r.now.section ≡ Columns → TakesTables r.now self.old self.new) }
    {
        let count = self.columns.len();
        self.columns.add(alloc, r, pairs)?;
        if count < self.columns.len() {
            self.bounds.add_column()?;
        }
        Ok(())
    }

    /// Takes in a data line of RHS.
    fn add_right_sides(&mut self, alloc: Global, r: &Record) -> Result<(), Memory>
        ensures head { OnOk result (SameHead self.old self.new) }
        ensures tables { OnOk result (r.now.header ≡ false → r.now.section ≡ Rhs → TakesTables r.now self.old self.new) }
    {
        self.rhs.add(alloc, Section::Rhs, &self.rows, r)
    }

    /// Takes in a data line of RANGES.
    fn add_ranges(&mut self, alloc: Global, r: &Record) -> Result<(), Memory>
        ensures head { OnOk result (SameHead self.old self.new) }
        ensures tables { OnOk result (r.now.header ≡ false → r.now.section ≡ Ranges → TakesTables r.now self.old self.new) }
    {
        self.ranges.add(alloc, Section::Ranges, &self.rows, r)
    }

    /// Takes in a data line of BOUNDS.
    fn add_bound(&mut self, alloc: Global, r: &Record) -> Result<(), Memory>
        ensures head { OnOk result (SameHead self.old self.new) }
        ensures tables { OnOk result (r.now.header ≡ false → r.now.section ≡ Bounds → TakesTables r.now self.old self.new) }
    {
        self.bounds.add(alloc, self.columns.names(), r)
    }

    /// Takes in a data line of ROWS.
    fn add_named_row(&mut self, r: &Record) -> Result<(), Memory>
        ensures head { OnOk result (SameHead self.old self.new) }
        ensures tables { OnOk result (r.now.header ≡ false → r.now.section ≡ Rows → IsNextRow self.old r.now
            → TakesTables r.now self.old self.new) }
    {
        match row_in(r.fields()) {
            Some((kind, name)) => self.add_row(kind, name),
            None => Ok(()),
        }
    }

    /// Takes in a data line.
    fn take_data(&mut self, alloc: Global, r: &Record, pairs: &[Resolved]) -> Result<(), Memory>
        requires { IsResolved self.old.rows r.now pairs.now }
        ensures head { OnOk result (SameHead self.old self.new) }
        ensures tables { OnOk result (r.now.header ≡ false → (r.now.section ≡ Rows → IsNextRow self.old r.now)
            → TakesTables r.now self.old self.new) }
    {
        match r.section() {
            Section::Rows => self.add_named_row(r),
            Section::Columns => self.add_entries(alloc, r, pairs),
            Section::Rhs => self.add_right_sides(alloc, r),
            Section::Ranges => self.add_ranges(alloc, r),
            Section::Bounds => self.add_bound(alloc, r),
            _ => Ok(()),
        }
    }

    /// Takes in what the line says of the tables.
    fn take_tables(&mut self, alloc: Global, r: &Record, pairs: &[Resolved]) -> Result<(), Memory>
        requires { IsResolved self.old.rows r.now pairs.now }
        ensures head { OnOk result (SameHead self.old self.new) }
        ensures tables { OnOk result ((r.now.header ≡ false → r.now.section ≡ Rows → IsNextRow self.old r.now)
            → TakesTables r.now self.old self.new) }
    {
        if r.is_header() {
            return Ok(());
        }
        self.take_data(alloc, r, pairs)
    }

    /// Takes in one more line, which has fields. Want of memory leaves a part of it.
    pub(crate) fn push(
        &mut self,
        alloc: Global,
        r: &Record,
        pairs: &[Resolved],
    ) -> Result<(), Memory>
        requires kept { is_kept r.now ≡ true }
        requires found { IsResolved self.old.rows r.now pairs.now }
        ensures { OnOk result ((before : List Line) → Stands before self.old
            → first_kind ((nat_lt 4096 r.now.bytes, 11) ∷ conditions deck_limits before r.now) ≡ None
            → Stands (before ++ r.now ∷ []) self.new) }
    {
        self.take_tables(alloc, r, pairs)?;
        self.take_head(alloc, r)
    }

    /// The model that the lines so far mean, where none has a fault.
    pub(crate) fn into_model(self, alloc: Global) -> Result<Mip, Memory>
        ensures { IfOk result (λ m. Means self m) }
    {
        let State {
            headers: _,
            name,
            is_sense_given: _,
            maximise,
            rows,
            kinds,
            columns,
            rhs,
            ranges,
            bounds,
        } = self;
        let rows = rows_of(alloc, rows, kinds.as_slice(), &rhs, &ranges)?;
        let cols = columns_of(alloc, columns, &bounds)?;
        Ok(Mip {
            name: Seq::from_vec(name),
            maximise,
            rows,
            cols,
        })
    }
}
