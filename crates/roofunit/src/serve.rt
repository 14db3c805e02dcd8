// What a line asks of a shelf, and what it is answered.
ghost use Rattle.roofunit.specs.Answers.{Answered, Served};
ghost use Rattle.roofunit.specs.Replies.{ShowTold};
ghost use Rattle.shelf.specs.Meaning.{describe_answer};
ghost use Rattle.std.specs.Prelude.{IfOk};

use crate::picture::picture;
use crate::reply::{Reply, fault_reply, look_reply, plain, plain_reply, stop_reply, strip_reply};
use lines::{Command, parse, read_cells};
use shelf::{ReceivingShelf, Shelf};
use std::alloc::{AllocError, Global};

/// The picture of a coverage.
fn show<S: Shelf>(heap: Global, shelf: &S, coverage: usize) -> Result<Reply, AllocError>
    ensures { IfOk result (ShowTold (describe_answer (S.Shelf.meaning shelf.now) coverage)) }
{
    match shelf.describe(coverage) {
        Ok(about) => picture(heap, shelf, coverage, about).map(plain),
        Err(fault) => fault_reply(heap, fault),
    }
}

/// Answers a command.
fn serve<S: ReceivingShelf>(
    heap: Global,
    shelf: &mut S,
    command: Command<'_>,
) -> Result<Reply, AllocError>
    ensures { Served (S.Shelf.meaning shelf.old) command.entry (S.Shelf.meaning shelf.new) result }
{
    match command {
        Command::Grid(_, _, _) => plain_reply(
            heap,
            "(not now: only the first grid line makes a grid)",
        ),
        Command::Strip(coverage, strip, text) => {
            let cells = read_cells(heap, text)?;
            let put = shelf.strip(coverage, strip, cells.as_slice());
            strip_reply(heap, coverage, strip, put)
        }
        Command::Look(coverage, at) => look_reply(heap, shelf.look(coverage, at)),
        Command::Show(coverage) => show(heap, shelf, coverage),
        Command::Check(_, _) => plain_reply(heap, "(not there yet: check)"),
        Command::Run(_) => plain_reply(heap, "(not there yet: run)"),
        Command::Help => plain_reply(heap, HELP),
    }
}

/// Answers a line.
pub fn answer<S: ReceivingShelf>(
    heap: Global,
    shelf: &mut S,
    line: &[u8],
) -> Result<Reply, AllocError>
    ensures { Answered (S.Shelf.meaning shelf.old) line.now (S.Shelf.meaning shelf.new) result }
{
    match parse(line) {
        Ok(command) => serve(heap, shelf, command),
        Err(place) => stop_reply(heap, place),
    }
}

/// The forms.
const HELP: &str =
    "(grid NAME (x LO HI) (y LO HI) (t LO HI) (span LO HI)) or (truth) for the span; y and t may be left out
(strip COVERAGE STRIP (CELL CELL ..))
(look COVERAGE X Y T)
(show COVERAGE)
(check PLAN TEXT)
(run PLAN)
(help)";
