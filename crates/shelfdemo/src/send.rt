use coverage::Refusal;
use shelf::{ReceivingShelf, Shelf};
use std::io;
use written::strip_line;

/// Sends a strip, and prints what is answered.
pub fn send<S: ReceivingShelf>(
    rt: &HostRuntime,
    shelf: &mut S,
    coverage: usize,
    strip: usize,
    cells: &[i32],
) -> io::Result<()> {
    match shelf.strip(coverage, strip, cells) {
        Ok(()) => rt.println(strip_line(rt.alloc(), coverage, strip)?),
        Err(fault) => println!(rt; "{}", Refusal::from(fault)),
    }
}
