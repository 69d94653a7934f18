// What is asked: an input a line at a time, answered in turns, and a line taken apart into its tag and its words, or into the bytes that it carries.
#![tactic(auto)]

mod bytes;
mod floats;
mod input;
pub mod tags;
mod words;

pub use bytes::{Octets, octets_in};
pub use input::{Turn, first_turn, next_turn};
pub use words::{Words, split};
