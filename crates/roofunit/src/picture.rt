// The picture of a coverage: a row a line, the highest y first, a heading before the rows of each t.
ghost use Rattle.std.specs.Prelude.{◌≡◌, ◌++◌, IfOk, string_bytes};
ghost use Rattle.roofunit.specs.Picture.{column, shown};

use coverage::range::{coordinates, lowest};
use coverage::{Description, Domain, Kind, Point};
use shelf::Shelf;
use std::alloc::{AllocError, Global};

/// The width of a column: that of the widest value of the kind.
fn column_width(heap: Global, kind: Kind) -> Result<usize, AllocError> {
    let lowest = kind.low().to_string(heap)?;
    let highest = kind.high().to_string(heap)?;
    Ok(lowest.len().max(highest.len()))
}

/// A cell: its value, or a dot where it is null.
fn cell_text(heap: Global, cell: Option<i32>) -> Result<String, AllocError>
    ensures { IfOk result (λ s. string_bytes s ≡ shown cell) }
{
    match cell {
        Some(v) => v.to_string(heap),
        None => ".".to_string(heap),
    }
}

/// Puts text after what is drawn, at the right end of a column.
fn push_column(picture: &mut String, text: &str, width: usize) -> Result<(), AllocError>
    ensures { IfOk result (λ _. string_bytes picture.new ≡ string_bytes picture.old ++ column width text.now) }
{
    for _k in 0..width.saturating_sub(text.len()) {
        picture.push_str(" ")?;
    }
    picture.push_str(text)
}

/// Ends the line that stands last in a picture, if there is one: no line is empty.
fn start_line(picture: &mut String) -> Result<(), AllocError> {
    if !picture.is_empty() {
        picture.push_str("\n")?;
    }
    Ok(())
}

// One text grows cell by cell: lists of cells and lines, to be joined, would hold the picture several times over.
/// A coverage as it is drawn.
#[derive(Drop)]
struct View<'s, S> {
    heap: Global,
    shelf: &'s S,
    coverage: usize,
    domain: Domain,
    width: usize,
}

impl<S: Shelf> View<'_, S> {
    /// Draws a cell in its column.
    fn draw_cell(&self, picture: &mut String, at: Point) -> Result<(), AllocError> {
        let cell = self.shelf.look(self.coverage, at).unwrap_or(None);
        let text = cell_text(self.heap, cell)?;
        push_column(picture, text.as_str(), self.width)
    }

    /// Draws the cells of a row, with a blank between columns.
    fn draw_row(&self, picture: &mut String, y: i64, t: i64) -> Result<(), AllocError> {
        for x in coordinates(self.domain.x) {
            if x > lowest(self.domain.x) {
                picture.push_str(" ")?;
            }
            self.draw_cell(picture, Point { x, y, t })?;
        }
        Ok(())
    }

    /// Draws the lines at one t: a heading where there is more than the rows, and the rows, the highest y first.
    fn draw_lines(&self, picture: &mut String, t: i64) -> Result<(), AllocError> {
        if self.domain.t.is_some() {
            start_line(picture)?;
            let heading = format!(in self.heap; "t {t}")?;
            picture.push_str(heading.as_str())?;
        }
        for y in coordinates(self.domain.y).rev() {
            start_line(picture)?;
            self.draw_row(picture, y, t)?;
        }
        Ok(())
    }
}

/// The picture of a coverage.
pub fn picture<S: Shelf>(
    heap: Global,
    shelf: &S,
    coverage: usize,
    about: Description,
) -> Result<String, AllocError> {
    let view = View {
        heap,
        shelf,
        coverage,
        domain: about.domain,
        width: column_width(heap, about.kind)?,
    };
    let mut picture = String::new(heap);
    for t in coordinates(about.domain.t) {
        view.draw_lines(&mut picture, t)?;
    }
    Ok(picture)
}
