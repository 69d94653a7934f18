// The answers to the questions of the line language that need no rules, a module for each kind. Each takes a line's words and gives the reply, a
// question mark where the line is out of form; the search writes its buffer too.
#![tactic(auto)]

pub mod almanac;
pub mod conversions;
pub mod days;
pub mod heavens;
pub mod searches;
pub mod trigonometry;
