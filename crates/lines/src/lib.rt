// The lines that are read: which bytes are a form, and what command they say. What a line says is in specs/.
#![tactic(auto)]

pub mod cells;
pub mod command;
pub mod forms;
mod grids;
pub mod numeral;
pub mod pieces;

pub use cells::read_cells;
pub use command::Command;
pub use forms::parse;
