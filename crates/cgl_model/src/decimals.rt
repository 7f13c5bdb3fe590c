ghost use Rattle.std.specs.List.{All};
ghost use Rattle.std.specs.Option.{IfSome};
ghost use Rattle.cgl_num.specs.Decimal.{IsDecimal};
ghost use Rattle.cgl_model.specs.HasDecimals.{HasDecimals};

use crate::Model;
use cgl_num::Dec;

fn limit_is_decimal(limit: Option<Dec>)
    ensures { IfSome limit IsDecimal }
{
    if let Some(number) = limit {
        let _m = number.m();
    }
}

fn entries_are_decimals(entries: &[(u32, Dec)])
    ensures { All (λ e. IsDecimal e.1) entries.now }
{
    for entry in entries {
        let _m = entry.1.m();
    }
}

impl Model {
    /// Its numbers are decimals within the limits, as contracts that speak of its sides need.
    pub fn has_decimals(&self)
        ensures { HasDecimals self.now }
    {
        for row in self.rows.as_slice() {
            let _m = row.rhs.m();
            limit_is_decimal(row.range);
        }
        for column in self.cols.as_slice() {
            limit_is_decimal(column.lo);
            limit_is_decimal(column.up);
            entries_are_decimals(column.entries.as_slice());
        }
    }
}
