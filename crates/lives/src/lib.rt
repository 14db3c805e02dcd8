//! What holds at every step of every life of a unit, told and proved of the definitions alone. A reader
//! begins in specs/ with Shelves and Unit, goes on with Calls (one call and its answer) and Life (a list of calls), and
//! ends with Theorem. Worked, Refusals and Example have cases. What a text says is told in crate parser.
#![tactic(auto)]

pub mod cell;
pub mod laws;

pub use cell::Cell;
pub use laws::{
    every_call_has_one_answer, every_life_keeps_its_promises, every_run_keeps_its_promises,
    refusals_come_in_turn, such_a_life_is_led, worked_cases_come_out_on_their_texts,
};
