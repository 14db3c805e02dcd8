ghost use Rattle.shelf_laws.proofs.Windows.{window_lawful};
ghost use Rattle.shelf.specs.Meaning.{answer_of};
ghost use Rattle.shelf_laws.specs.Window.{seen_under, view_on, window_fault, window_meaning};
ghost use Rattle.std.specs.List.{slice_get};
ghost use Rattle.std.specs.Prelude.{◌≡◌};

use coverage::{Description, Point};
use shelf::{MakingFault, ReceivingShelf, Shelf, ShelfFault};
use shelf_laws::{Cut, View};

/// One coverage of a shelf, cut to a range of y and of t, under number 0. Strips are numbered by the
/// window's own y and t, and faults are told in its own numbers.
#[derive(Drop)]
pub struct Window<'w, S> {
    pub below: &'w mut S,
    pub coverage: usize,
    pub cut: Cut,
}

/// What a window would show, or why it shows nothing: no such coverage, or the cut is not inside.
fn view<S: Shelf>(below: &S, coverage: usize, cut: Cut) -> Result<View, MakingFault>
    ensures { result ≡ view_on (slice_get (S.Shelf.meaning below.now) coverage) coverage cut }
{
    let Ok(about) = below.describe(coverage) else {
        return Err(MakingFault::NoCoverage { coverage });
    };
    if !cut.fits(about.domain) {
        return Err(MakingFault::OutOfBounds);
    }
    Ok(View {
        whole: about.domain,
        about: Description {
            domain: cut.of(about.domain),
            ..about
        },
    })
}

/// The call before the making of a window: why it is refused, or nothing.
pub fn check_window<S: Shelf>(below: &S, coverage: usize, cut: Cut) -> Result<(), MakingFault>
    ensures { result ≡ answer_of (window_fault (S.Shelf.meaning below.now) coverage cut) }
{
    view(below, coverage, cut).map(|_| ())
}

/// A window on a coverage of the shelf below; against a refusal, one without a coverage. The shelf
/// below stays as it was.
pub fn make_window<'w, S: Shelf>(below: &'w mut S, coverage: usize, cut: Cut) -> Window<'w, S>
    ensures below { result.below.now ≡ below.old }
    ensures meaning { window_meaning (S.Shelf.meaning result.below.now) result.coverage result.cut ≡ window_meaning (S.Shelf.meaning below.old) coverage cut }
{
    Window {
        below,
        coverage,
        cut,
    }
}

impl<'w, S: Shelf> Window<'w, S> {
    /// What a call under a number sees; the window's coverage has number 0.
    // Put into each call, as the look of `Single` is: a look through windows would else cost several times as much.
    #[inline(always)]
    fn seen(&self, coverage: usize, strip: usize) -> Result<View, ShelfFault>
        ensures { result ≡ seen_under (view_on (slice_get (S.Shelf.meaning self.now.below.now) self.now.coverage) self.now.coverage self.now.cut) coverage strip }
    {
        // The number first: for another than 0 nothing below is asked.
        let none = ShelfFault::NoCoverage { coverage, strip };
        if coverage != 0 {
            return Err(none);
        }
        view(self.below, self.coverage, self.cut).map_err(|_| none)
    }
}

impl<'w, S: Shelf> Shelf for Window<'w, S> {
    ghost meaning = { λ w. window_meaning (S.Shelf.meaning w.below.now) w.coverage w.cut };

    ghost lawful = { λ w. window_lawful (S.Shelf.meaning w.below.now) w.coverage w.cut (S.Shelf.lawful w.below.now) };

    fn count(&self) -> usize {
        usize::from(view(self.below, self.coverage, self.cut).is_ok())
    }

    fn describe(&self, coverage: usize) -> Result<Description, ShelfFault> {
        let view = self.seen(coverage, 0)?;
        Ok(view.about)
    }

    fn find(&self, name: &[u8]) -> Option<usize> {
        let view = view(self.below, self.coverage, self.cut).ok()?;
        view.about.name.is(name).then_some(0)
    }

    fn look(&self, coverage: usize, at: Point) -> Result<Option<i32>, ShelfFault> {
        let view = self.seen(coverage, 0)?;
        if !view.about.domain.contains(at) {
            return Err(ShelfFault::Outside { coverage });
        }
        self.below
            .look(self.coverage, at)
            .map_err(|fault| fault.renumbered(coverage, 0))
    }
}

impl<'w, S: ReceivingShelf> ReceivingShelf for Window<'w, S> {
    fn strip(&mut self, coverage: usize, strip: usize, cells: &[i32]) -> Result<(), ShelfFault> {
        let view = self.seen(coverage, strip)?;
        if !view.about.receives {
            return Err(ShelfFault::Fixed { coverage, strip });
        }
        if strip >= view.about.domain.strips() {
            return Err(ShelfFault::NoStrip { coverage, strip });
        }
        let below = view
            .whole
            .strip_number(view.about.domain.strip_first(strip));
        self.below
            .strip(self.coverage, below, cells)
            .map_err(|fault| fault.renumbered(coverage, strip))
    }
}
