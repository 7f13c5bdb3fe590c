//! What a reader of a point file carries from line to line.

ghost use Rattle.std.specs.Prelude.{◌≡◌, ℕ, [], map, IfOk, None, false};
ghost use Rattle.cgl_where.specs.Carried.{Carries, FollowsLine, IsSound, TakesIn, carried_conditions, carried_value, named_at};
ghost use Rattle.cgl_where.specs.Limits.{ArePositive};
ghost use Rattle.cgl_text.specs.Conditions.{first_kind};
ghost use Rattle.cgl_text.specs.Seen.{words};
ghost use Rattle.cgl_where.specs.PointFile.{Record, is_too_fine, point_in, record_of};

use crate::columns::Columns;
use crate::denominators::{grown_denominator, point_in};
use crate::values::value;
use cgl_model::Point;
use cgl_num::{Frac, Memory};
use cgl_text::kept_fields;
use std::alloc::Global;

/// The most bytes of a line.
pub(crate) const LONGEST_LINE: usize = 4096;

/// The value of each column that a line named, all values in order, and their least common denominator.
#[derive(Drop)]
pub(crate) struct Carried {
    named: Vec<Option<Frac>>,
    values: Vec<Frac>,
    denominator: u128,
}

/// The value of the column of this number, where a line named it.
fn named_at(named: &[Option<Frac>], number: Option<usize>) -> Option<Frac>
    ensures { result ≡ named_at named.now number }
{
    let Some(j) = number else {
        return None;
    };
    match named.get(j) {
        Some(found) => *found,
        None => None,
    }
}

impl Carried {
    /// Before the first line.
    pub(crate) fn new(alloc: Global, columns: &Columns) -> Result<Carried, Memory>
        ensures { IfOk result (λ it. Carries columns.now [] it) }
    {
        let Ok(named) = vec![in alloc; None; columns.model.cols.as_slice().len()] else {
            return Err(Memory);
        };
        Ok(Carried {
            named,
            values: Vec::new(alloc),
            denominator: 1,
        })
    }

    /// Takes in the value of the fields of a line, unless the line is a fault. The kind of the fault.
    fn take_value(&mut self, columns: &Columns, fields: &[&[u8]]) -> Result<Option<u8>, Memory>
        requires { IsSound columns.now self.old }
        ensures kind { IfOk result (λ kind. (r : Record) → r.fields ≡ words fields.now
            → kind ≡ first_kind (carried_conditions columns.now self.old r)) }
        ensures taken { IfOk result (λ kind. (r : Record) → r.fields ≡ words fields.now
            → kind ≡ None → TakesIn columns.now r self.old self.new) }
    {
        let [name, text] = fields else {
            return Ok(Some(3));
        };
        let Some(column) = columns.find(name) else {
            return Ok(Some(6));
        };
        let named_before = self.named[column].is_some();
        if named_before {
            return Ok(Some(14));
        }
        let Some(taken) = value(text) else {
            return Ok(Some(4));
        };
        let Some(denominator) = grown_denominator(self.values.as_slice(), self.denominator, taken)
        else {
            return Ok(Some(13));
        };
        let Ok(()) = self.values.push(taken) else {
            return Err(Memory);
        };
        self.named[column] = Some(taken);
        self.denominator = denominator;
        Ok(None)
    }

    /// Takes in a line that ends within the limit on bytes, unless it is a fault. The kind of the fault.
    pub(crate) fn take_line(
        &mut self,
        alloc: Global,
        columns: &Columns,
        line: &[u8],
    ) -> Result<Option<u8>, Memory>
        requires { IsSound columns.now self.old }
        ensures { IfOk result (λ kind. (n : ℕ) → FollowsLine columns.now (record_of n line.now) kind self.old self.new) }
    {
        let Ok(fields) = kept_fields(alloc, line) else {
            return Err(Memory);
        };
        if line.len() > LONGEST_LINE {
            return Ok(Some(11));
        }
        if fields.is_empty() {
            return Ok(None);
        }
        self.take_value(columns, fields.as_slice())
    }

    /// The values of the columns over their least common denominator.
    pub(crate) fn point(&self, alloc: Global, columns: &Columns) -> Result<Point, Memory>
        requires positive { ArePositive (map (λ c. carried_value columns.now self.now.named.items c.name) columns.now.cols) }
        requires within { is_too_fine (map (λ c. carried_value columns.now self.now.named.items c.name) columns.now.cols) ≡ false }
        ensures { IfOk result (λ x. x ≡ point_in (map (λ c. carried_value columns.now self.now.named.items c.name) columns.now.cols)) }
    {
        let mut values = Vec::new(alloc);
        for c in columns.model.cols.as_slice() {
            let found = named_at(self.named.as_slice(), columns.find(c.name.as_slice()));
            let Ok(()) = values.push(found.unwrap_or(Frac::new(0, 1))) else {
                return Err(Memory);
            };
        }
        point_in(alloc, values.as_slice())
    }
}
