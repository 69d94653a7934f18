// A line of a year table, taken apart as specs/Line.antt says: its numbers, and the year that its comment says.
#![tactic(auto)]

mod comments;
mod row;

pub use comments::year_said;
pub use row::{Judged, Row, Unread, is_blank, judge, read_row};
