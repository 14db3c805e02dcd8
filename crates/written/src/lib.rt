// The lines that are printed.
#![tactic(auto)]

ghost use Rattle.written.specs.Format.{cell_line, grid_line, not_a_form, refusal_line, strip_line};
ghost use Rattle.std.specs.Prelude.{◌≡◌, IfOk, string_bytes};

use coverage::Refusal;
use std::alloc::{AllocError, Global};

/// `(grid 0)`: the number of the coverage that was made.
pub fn grid_line(heap: Global, coverage: usize) -> Result<String, AllocError>
    ensures { IfOk result (λ s. string_bytes s ≡ grid_line coverage) }
{
    format!(in heap; "(grid {coverage})")
}

/// `(strip 0 1)`: the coverage and the strip that was put.
pub fn strip_line(heap: Global, coverage: usize, strip: usize) -> Result<String, AllocError>
    ensures { IfOk result (λ s. string_bytes s ≡ strip_line coverage strip) }
{
    format!(in heap; "(strip {coverage} {strip})")
}

/// `(cell 50)` or `(cell null)`.
pub fn cell_line(heap: Global, cell: Option<i32>) -> Result<String, AllocError>
    ensures { IfOk result (λ s. string_bytes s ≡ cell_line cell) }
{
    match cell {
        None => "(cell null)".to_string(heap),
        Some(v) => format!(in heap; "(cell {v})"),
    }
}

/// `(refused shelf 19 0 1)`: the layer, the number of the cause, what is returned.
pub fn refusal_line(heap: Global, refusal: Refusal) -> Result<String, AllocError>
    ensures { IfOk result (λ s. string_bytes s ≡ refusal_line refusal) }
{
    refusal.to_string(heap)
}

/// `(not a form: byte 7)`: the place where a line stops being a form.
pub fn stop_line(heap: Global, place: usize) -> Result<String, AllocError>
    ensures { IfOk result (λ s. string_bytes s ≡ not_a_form place) }
{
    format!(in heap; "(not a form: byte {place})")
}
