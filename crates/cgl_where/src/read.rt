//! Point files on a shelf.

ghost use Rattle.std.specs.Prelude.{◌≡◌, ◌⊎◌, ◌≤◌, length, IfOk, IfErr, IsErrOf, Ok};
ghost use Rattle.cgl_outside.specs.Shelf.{Lacks, Rose};
ghost use Rattle.cgl_where.specs.PointRead.{point_result};
ghost use Rattle.cgl_outside.specs.Means.{Means, MeansFault};

use crate::carried::{Carried, LONGEST_LINE};
use crate::columns::Columns;
use cgl_model::{Model, Point};
use cgl_outside::{FetchError, LineStep, Lines, ReadError, Shelf};
use std::alloc::Global;

/// The point that the file of this name on the shelf means for the model. The file is read from its
/// start, line by line, to its end. The shelf's files stay as they were.
///
/// The point has a number for each column of the model, in their order, over one denominator, the
/// least that all of them have. A column that no line names is at 0.
///
/// # Errors
///
/// `Fault` where the file is no point file for the model, at its first bad line, counted from 1, and
/// with the kind of that line's first fault, however long the file is. The kind is 12 (the byte
/// 2^30 + 1 stands in the line), 11 (a line over 4,096 bytes), 3 (not two fields), 6 (an unknown
/// column), 14 (a column named before), 4 (a value that is not of its form or out of its limits) or
/// 13 (from this line on the values' common denominator is above 2^62, or a numerator over it reaches
/// 2^100). `ReadFault` where a read failed or there is no such file. `Memory` where memory was
/// refused.
pub fn read_point<S: Shelf>(
    alloc: Global,
    shelf: &mut S,
    name: &str,
    model: &Model,
) -> Result<Point, ReadError>
    ensures point { IfOk result (λ x. Means (S.held shelf.old) name.now (point_result model.now) (Ok x)) }
    ensures sized { IfOk result (λ x. length x.p ≡ length model.now.cols) }
    ensures fault { IfErr result (MeansFault (S.held shelf.old) name.now (point_result model.now)) }
    ensures read_fault { IsErrOf result ReadError.ReadFault
        → Rose (S.failed_reads shelf.old) (S.failed_reads shelf.new) ⊎ Lacks (S.held shelf.old) name.now }
    ensures reads { IsErrOf result ReadError.ReadFault ⊎ (S.failed_reads shelf.new ≡ S.failed_reads shelf.old) }
    ensures later { S.failed_reads shelf.old ≤ S.failed_reads shelf.new }
    ensures excused { Lacks (S.held shelf.old) name.now → S.failed_reads shelf.new ≡ S.failed_reads shelf.old }
    ensures held { S.held shelf.new ≡ S.held shelf.old }
    ensures writes { S.failed_writes shelf.new ≡ S.failed_writes shelf.old }
{
    let Ok(columns) = Columns::of(alloc, model) else {
        return Err(ReadError::Memory);
    };
    let Ok(mut carried) = Carried::new(alloc, &columns) else {
        return Err(ReadError::Memory);
    };
    let Ok(mut lines) = Lines::start(alloc, name, LONGEST_LINE as u64) else {
        return Err(ReadError::Memory);
    };
    'lines: loop {
        match lines.next(shelf) {
            Ok(LineStep::Line) => {
                let Ok(fault) = carried.take_line(alloc, &columns, lines.bytes()) else {
                    return Err(ReadError::Memory);
                };
                if let Some(kind) = fault {
                    return Err(ReadError::Fault {
                        line: lines.number(),
                        kind,
                    });
                }
            }
            Ok(LineStep::TooLong) => {
                return Err(ReadError::Fault {
                    line: lines.number(),
                    kind: 11,
                });
            }
            Ok(LineStep::Over) => {
                return Err(ReadError::Fault {
                    line: lines.number(),
                    kind: 12,
                });
            }
            Ok(LineStep::End) => {
                let Ok(point) = carried.point(alloc, &columns) else {
                    return Err(ReadError::Memory);
                };
                return Ok(point);
            }
            Err(FetchError::ReadFault) => return Err(ReadError::ReadFault),
            Err(FetchError::Memory) => return Err(ReadError::Memory),
        }
    }
}
