ghost use Rattle.lines.specs.Numerals.{cells_of};
ghost use Rattle.std.specs.Prelude.{◌≡◌, IfOk};

use crate::numeral::cell_of;
use std::alloc::{AllocError, Global};

/// The cells that a text writes: numerals with one blank between them.
pub fn read_cells(heap: Global, text: &[u8]) -> Result<Vec<i32>, AllocError>
    ensures { IfOk result (λ v. v.items ≡ cells_of text.now) }
{
    let mut cells = Vec::new(heap);
    if text.is_empty() {
        return Ok(cells);
    }
    let mut from = 0;
    for (at, byte) in text.iter().enumerate() {
        if *byte == b' ' {
            cells.push(cell_of(&text[from..at]))?;
            from = at + 1;
        }
    }
    cells.push(cell_of(&text[from..]))?;
    Ok(cells)
}
