// Numbers and lines as bytes, read and written. A text is read by a cursor that goes in by value and comes back with what was found. What is
// written into a lent buffer stops at the buffer's end, so no function asks for room.
#![tactic(auto)]

mod keeping;
mod reading;
mod triples;
mod writing;

pub use keeping::{Filled, Held, fill, nothing};
pub use reading::{Cursor, behind, stands, start, whole_number};
pub use triples::dashed;
pub use writing::{put, put_decimal, put_hex, put_wide};
