// The tokens of a query's text, each with its place. Bytes 9, 10, 13 and 32 separate tokens; the longest
// match is taken. What is no token is told at its first byte.
#![tactic(auto)]

pub mod faults;
pub mod next;
pub mod numeral;
pub mod reserved;
pub mod symbol;
pub mod token;

pub use faults::first_bad;
pub use next::peek;
pub use symbol::Symbol;
pub use token::{Lexed, Token};
