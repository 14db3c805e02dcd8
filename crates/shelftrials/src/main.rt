// Every refusal of the shelves' calls and makings, on both sides of each limit: a line for each case.
#![tactic(auto)]

use std::io;

pub mod asked;
pub mod calls;
pub mod cuts;
pub mod eighth;
pub mod joins;
pub mod limits;
pub mod looks;
pub mod makings;
pub mod names;
pub mod strips;
pub mod told;
pub mod windows;

fn main(rt: HostRuntime) -> io::Result<()> {
    names::names(&rt)?;
    limits::limits(&rt)?;
    makings::makings(&rt)?;
    looks::looks(&rt)?;
    strips::strips(&rt)?;
    joins::joins(&rt)?;
    eighth::eighth(&rt)?;
    windows::windows(&rt)?;
    cuts::cuts(&rt)
}
