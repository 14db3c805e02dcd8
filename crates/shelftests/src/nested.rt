use crate::told::told;
use coverage::{Domain, Kind, Point, Range};
use shelf::{ReceivingShelf, Shelf};
use shelf_laws::{Cut, Slopes};
use shelves::{Join, make_grid, make_ramp, make_window};
use std::process::Abort;

/// x 0 to 1 and y 0 to 3.
const ROOF: Domain = Domain {
    x: Some(Range { lo: 0, hi: 1 }),
    y: Some(Range { lo: 0, hi: 3 }),
    t: None,
};

/// Rows from a lowest to a highest y; the range of t is ignored, for the roof has none.
fn rows(lo: i64, hi: i64) -> Cut {
    Cut {
        y: Range { lo, hi },
        t: Range { lo: 0, hi: 0 },
    }
}

/// Strips 0 and 1 of the upper window are the rows y 2 and y 3 of the roof.
fn through_upper<S: ReceivingShelf>(rt: &impl Abort, both: &mut S) {
    let mut upper = make_window(both, 1, rows(2, 3));
    assert_eq!(rt; told(upper.strip(0, 1, &[30, 31])), Ok(()));
    assert_eq!(rt; told(upper.strip(0, 1, &[30, 31])), Err(19));
    assert_eq!(rt; told(upper.strip(0, 2, &[40, 41])), Err(17));
    assert_eq!(rt;
        told(upper.look(0, Point { x: 1, y: 3, t: 0 })),
        Ok(Some(31))
    );
    assert_eq!(rt; told(upper.look(0, Point { x: 1, y: 1, t: 0 })), Err(15));
}

/// The slope's coverage comes before the lower window's.
fn through_join<A: ReceivingShelf, B: ReceivingShelf>(
    rt: &impl Abort,
    slope: &mut A,
    lower: &mut B,
) {
    let mut both = Join {
        first: slope,
        second: lower,
    };
    through_upper(rt, &mut both);
    assert_eq!(rt; told(both.strip(0, 0, &[1, 2])), Err(16));
    assert_eq!(rt; told(both.look(1, Point { x: 0, y: 2, t: 0 })), Ok(None));
}

fn through_lower<A: ReceivingShelf, B: ReceivingShelf>(
    rt: &impl Abort,
    slope: &mut A,
    roof: &mut B,
) {
    let mut lower = make_window(roof, 0, rows(1, 3));
    through_join(rt, slope, &mut lower);
}

#[test]
fn strip_through_a_stack_fills_the_row_that_its_number_names(rt: HostRuntime) {
    let mut cells = [0i32; 8];
    let span = Kind::Number(Range { lo: 0, hi: 99 });
    let mut roof = make_grid(b"roof", ROOF, span, &mut cells);
    let mut slope = make_ramp(b"slope", ROOF, Slopes { x: 1, y: 10, t: 0 }, 5);
    through_lower(&rt, &mut slope, &mut roof);
    assert_eq!(rt;
        told(roof.look(0, Point { x: 0, y: 3, t: 0 })),
        Ok(Some(30))
    );
    assert_eq!(rt; told(roof.look(0, Point { x: 0, y: 2, t: 0 })), Ok(None));
}
