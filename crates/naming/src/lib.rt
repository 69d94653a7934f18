// A file of festivals' names, lines `NUMBER=TEXT`: whether it is in form, and the name of a number. specs/Names.antt says what the file is.
#![tactic(auto)]

mod checking;
mod finding;
mod lines;

pub use checking::check;
pub use finding::{has_name, put_name};
pub use lines::Fault;
