// What the words of a command ask, and the line that says why it is refused.
#![tactic(auto)]

mod outside;
pub mod refusals;
pub mod words;
