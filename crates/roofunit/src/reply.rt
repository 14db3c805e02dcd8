// Replies: the line that is printed, and why the call was refused, if it was.
ghost use Rattle.written.specs.Format.{not_a_form};
ghost use Rattle.roofunit.specs.Replies.{GridTold, LookTold, Plain, Refuses, StripTold};
ghost use Rattle.roofunit.specs.declared.fault.Fault.TheVariants.{Shelf};
ghost use Rattle.std.specs.Prelude.{◌≡◌, IfOk, string_bytes};

use crate::fault::Fault;
use coverage::Refusal;
use shelf::{MakingFault, ShelfFault};
use std::alloc::{AllocError, Global};
use written::{cell_line, grid_line, refusal_line, stop_line, strip_line};

/// What a line is answered with.
#[derive(Drop)]
pub struct Reply {
    pub line: String,
    pub refused: Option<Fault>,
}

/// A line that tells no refusal.
pub fn plain(line: String) -> Reply
    ensures { Plain (string_bytes line) result }
{
    Reply {
        line,
        refused: None,
    }
}

/// A refusal.
fn refused(heap: Global, fault: Fault) -> Result<Reply, AllocError>
    ensures { IfOk result (Refuses fault) }
{
    let line = refusal_line(heap, Refusal::from(fault))?;
    Ok(Reply {
        line,
        refused: Some(fault),
    })
}

/// The grid that was made, or why not.
pub fn grid_reply(heap: Global, made: Result<(), MakingFault>) -> Result<Reply, AllocError>
    ensures { IfOk result (GridTold made) }
{
    match made {
        Ok(()) => grid_line(heap, 0).map(plain),
        Err(fault) => refused(heap, Fault::Making(fault)),
    }
}

/// The strip that was put, or why not.
pub fn strip_reply(
    heap: Global,
    coverage: usize,
    strip: usize,
    put: Result<(), ShelfFault>,
) -> Result<Reply, AllocError>
    ensures { IfOk result (StripTold coverage strip put) }
{
    match put {
        Ok(()) => strip_line(heap, coverage, strip).map(plain),
        Err(fault) => fault_reply(heap, fault),
    }
}

/// The cell that was looked at, or why not.
pub fn look_reply(
    heap: Global,
    looked: Result<Option<i32>, ShelfFault>,
) -> Result<Reply, AllocError>
    ensures { IfOk result (LookTold looked) }
{
    match looked {
        Ok(cell) => cell_line(heap, cell).map(plain),
        Err(fault) => fault_reply(heap, fault),
    }
}

/// A line that is no form.
pub fn stop_reply(heap: Global, place: usize) -> Result<Reply, AllocError>
    ensures { IfOk result (Plain (not_a_form place)) }
{
    stop_line(heap, place).map(plain)
}

/// A line that stands as it is.
pub fn plain_reply(heap: Global, text: &str) -> Result<Reply, AllocError>
    ensures { IfOk result (Plain text.now) }
{
    text.to_string(heap).map(plain)
}

/// A shelf's fault.
pub fn fault_reply(heap: Global, fault: ShelfFault) -> Result<Reply, AllocError>
    ensures { IfOk result (Refuses (Shelf fault)) }
{
    refused(heap, Fault::Shelf(fault))
}
