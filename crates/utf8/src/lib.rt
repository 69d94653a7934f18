// Texts of bytes as characters: whether a text is UTF-8, its first characters, and the control characters in it.
#![tactic(auto)]

mod controls;
mod fronts;
mod sequences;

pub use controls::{first_control, is_clear};
pub use fronts::front_length;
pub use sequences::is_utf8;
