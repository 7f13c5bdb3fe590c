//! Cases of point files.
use crate::bytes::bytes_of;
use crate::lines::Dribble;
use cgl_mps::read_deck;
use cgl_outside::ReadError;
use cgl_where::read_point;
use std::alloc::Global;

/// A deck with the columns a, b and c.
const DECK: &str = "ROWS\\n N o\\nCOLUMNS\\n a o 1\\n b o 1\\n c o 1\\nENDATA\\n";

/// Tells the point of a file for the columns a, b and c, or the file's first bad line and kind, where each read gives
/// one byte.
pub fn tell_point(rt: &impl Print, alloc: Global, text: &str) -> Option<()> {
    let mut deck = Dribble {
        bytes: bytes_of(alloc, DECK)?,
    };
    let model = read_deck(alloc, &mut deck, "deck").ok()?;
    let mut shelf = Dribble {
        bytes: bytes_of(alloc, text)?,
    };
    match read_point(alloc, &mut shelf, "point", &model) {
        Ok(point) => {
            let numerators = point.numerators();
            println!(rt; "  {numerators:?} over {}", point.denominator()).ok()
        }
        Err(ReadError::Fault { line, kind }) => println!(rt; "  line {line} kind {kind}").ok(),
        Err(ReadError::ReadFault | ReadError::Memory) => None,
    }
}
