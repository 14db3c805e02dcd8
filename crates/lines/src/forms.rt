// The forms: each is a row of pieces, and answers its command, or the place where the line stops being it.
ghost use Rattle.std.specs.Prelude.{◌≡◌, ℕ, cond, codes, Err, IfOk};
ghost use Rattle.std.specs.List.{fold};
ghost use Rattle.lines.specs.Forms.{axis_form, bare_form, bounds_form, check_form, count_form, either, forms, grid_form, help_form, kind_form, look_form, placed, stop_over, strip_form};
ghost use Rattle.lines.specs.Grids.{has_t, has_y, is_truth};
ghost use Rattle.lines.specs.Grammar.{Parsed};
ghost use Rattle.lines.specs.Pieces.{Read, stop};
ghost use Rattle.lines.specs.Says.{AxisSays, Bounds, CountSays, KindSays, Said};

use crate::command::Command;
use crate::grids::{Axes, Sort};
use crate::numeral::{count_of, range_of};
use crate::pieces::{count, digits, last, literal, name, number, numeral, numerals, query};
use coverage::{Domain, Kind, Point, Range};
use cursor::Cursor;

/// The opening `word`, two numbers with a blank between them, and a closing bracket.
fn read_bounds(from: &mut Cursor, word: &[u8]) -> Result<Range, usize>
    ensures { Read (bounds_form word.now) (Bounds word.now) from.old from.new result }
{
    literal(from, word)?;
    let lo = numeral(from)?;
    literal(from, b" ")?;
    let hi = numeral(from)?;
    literal(from, b")")?;
    Ok(range_of(lo, hi))
}

/// An axis, where the line's shape has it.
fn read_axis(from: &mut Cursor, has_it: bool, word: &[u8]) -> Result<Option<Range>, usize>
    ensures { Read (axis_form has_it word.now) (AxisSays word.now) from.old from.new result }
{
    if !has_it {
        return Ok(None);
    }
    read_bounds(from, word).map(Some)
}

/// A span, or that the grid is of truths.
fn read_kind(from: &mut Cursor, sort: Sort) -> Result<Kind, usize>
    ensures { Read (kind_form (is_truth sort)) KindSays from.old from.new result }
{
    match sort {
        Sort::Truths => {
            literal(from, b" (truth)")?;
            Ok(Kind::Truth)
        }
        Sort::Numbers => read_bounds(from, b" (span ").map(Kind::Number),
    }
}

/// `(grid NAME (x LO HI) (y LO HI) (t LO HI) (span LO HI))` with some of its axes, of numbers or of truths.
fn grid<'a>(line: &'a [u8], axes: Axes, sort: Sort) -> Result<Command<'a>, usize>
    ensures place { placed result ≡ stop 0 (grid_form (has_y axes) (has_t axes) (is_truth sort)) line.now }
    ensures says { Said line.now result }
{
    let mut from = Cursor::new(line);
    literal(&mut from, b"(grid ")?;
    let name = name(&mut from);
    let x = read_bounds(&mut from, b" (x ")?;
    let y = read_axis(&mut from, axes.has_y(), b" (y ")?;
    let t = read_axis(&mut from, axes.has_t(), b" (t ")?;
    let kind = read_kind(&mut from, sort)?;
    last(&mut from)?;
    let domain = Domain { x: Some(x), y, t };
    Ok(Command::Grid(name, domain, kind))
}

/// `(strip C N (V V ..))`, or `(strip C N ())` where it has no cells.
fn strip<'a>(line: &'a [u8], has_cells: bool) -> Result<Command<'a>, usize>
    ensures place { placed result ≡ stop 0 (cond has_cells strip_form bare_form) line.now }
    ensures says { Said line.now result }
{
    let mut from = Cursor::new(line);
    literal(&mut from, b"(strip ")?;
    let coverage = digits(&mut from)?;
    literal(&mut from, b" ")?;
    let strip = digits(&mut from)?;
    literal(&mut from, b" (")?;
    let cells = if has_cells { numerals(&mut from)? } else { &[] };
    literal(&mut from, b")")?;
    last(&mut from)?;
    // Both shapes are read of each line: only the one that the line has works its counts out.
    Ok(Command::Strip(count_of(coverage), count_of(strip), cells))
}

/// `(look C X Y T)`.
fn look<'a>(line: &'a [u8]) -> Result<Command<'a>, usize>
    ensures place { placed result ≡ stop 0 look_form line.now }
    ensures says { Said line.now result }
{
    let mut from = Cursor::new(line);
    literal(&mut from, b"(look ")?;
    let coverage = count(&mut from)?;
    literal(&mut from, b" ")?;
    let x = number(&mut from)?;
    literal(&mut from, b" ")?;
    let y = number(&mut from)?;
    literal(&mut from, b" ")?;
    let t = number(&mut from)?;
    last(&mut from)?;
    Ok(Command::Look(coverage, Point { x, y, t }))
}

/// The opening `word`, a count, and the closing bracket: `(show C)`, `(run P)`.
fn counted<'a, F: FnOnce(usize) -> Command<'a>>(
    line: &'a [u8],
    word: &[u8],
    command: F,
) -> Result<Command<'a>, usize>
    requires { F.IsAlwaysCallable command }
    ensures place { placed result ≡ stop 0 (count_form word.now) line.now }
    ensures says { IfOk result (λ c. (n : ℕ) × F.post command n c × CountSays word.now line.now n) }
{
    let mut from = Cursor::new(line);
    literal(&mut from, word)?;
    let n = count(&mut from)?;
    last(&mut from)?;
    Ok(command(n))
}

/// `(check P TEXT)`: the text goes to the last byte of the line, which is a closing bracket.
fn check<'a>(line: &'a [u8]) -> Result<Command<'a>, usize>
    ensures place { placed result ≡ stop 0 check_form line.now }
    ensures says { Said line.now result }
{
    let mut from = Cursor::new(line);
    literal(&mut from, b"(check ")?;
    let plan = count(&mut from)?;
    literal(&mut from, b" ")?;
    let text = query(&from)?;
    Ok(Command::Check(plan, text))
}

/// `(help)`.
fn help<'a>(line: &'a [u8]) -> Result<Command<'a>, usize>
    ensures place { placed result ≡ stop 0 help_form line.now }
    ensures says { Said line.now result }
{
    let mut from = Cursor::new(line);
    literal(&mut from, b"(help")?;
    last(&mut from)?;
    Ok(Command::Help)
}

// A match on the first: what `or_else` gives of a closure that maps the second's place is not found.
/// Of two readings, the one that found a command; where neither did, the line stops where the farther stops.
fn either<'a>(
    one: Result<Command<'a>, usize>,
    other: Result<Command<'a>, usize>,
) -> Result<Command<'a>, usize>
    ensures { result ≡ either one.entry other.entry }
{
    match one {
        Ok(_) => one,
        Err(p) => other.map_err(|q| p.max(q)),
    }
}

/// The same of any number of readings.
fn any<'a>(readings: &[Result<Command<'a>, usize>]) -> Result<Command<'a>, usize>
    ensures { result ≡ fold either (Err 0) readings.now }
{
    readings.iter().copied().fold(Err(0), either)
}

/// The command that a line says, or the place where it stops being a form.
pub fn parse<'a>(line: &'a [u8]) -> Result<Command<'a>, usize>
    ensures place { placed result ≡ stop_over forms line.now }
    ensures parsed { Parsed line.now result }
    ensures says { Said line.now result }
{
    // Every shape of a grid line is read: a line stops where the farthest of all forms stops.
    any(&[
        grid(line, Axes::X, Sort::Numbers),
        grid(line, Axes::X, Sort::Truths),
        grid(line, Axes::Xy, Sort::Numbers),
        grid(line, Axes::Xy, Sort::Truths),
        grid(line, Axes::Xt, Sort::Numbers),
        grid(line, Axes::Xt, Sort::Truths),
        grid(line, Axes::Xyt, Sort::Numbers),
        grid(line, Axes::Xyt, Sort::Truths),
        strip(line, false),
        strip(line, true),
        look(line),
        counted(line, b"(show ", Command::Show),
        check(line),
        counted(line, b"(run ", Command::Run),
        help(line),
    ])
}
