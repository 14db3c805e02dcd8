// A place in a text, which moves as the text is read.
#![tactic(auto)]

pub mod cursor;
mod lengths;

pub use cursor::Cursor;
