use crate::told::told;
use coverage::{Description, Domain, Point, Range};
use shelf::{ReceivingShelf, Shelf, ShelfFault};
use shelf_laws::Slopes;
use shelves::{check_byte_grid, check_ramp, make_byte_grid, make_ramp};

/// The lowest and the highest value of a described coverage.
fn span(answer: Result<Description, ShelfFault>) -> Option<(i64, i64)> {
    let about = answer.ok()?;
    Some((about.kind.low(), about.kind.high()))
}

/// x from `lo` to `hi`, and nothing else.
fn along_x(lo: i64, hi: i64) -> Domain {
    Domain {
        x: Some(Range { lo, hi }),
        y: None,
        t: None,
    }
}

/// x 0 to 2 and y 0 to 1.
fn roof() -> Domain {
    Domain {
        x: Some(Range { lo: 0, hi: 2 }),
        y: Some(Range { lo: 0, hi: 1 }),
        t: None,
    }
}

#[test]
fn byte_grid_makings(rt: HostRuntime) {
    assert_eq!(rt; told(check_byte_grid(b"roof", roof(), 6)), Ok(()));
    assert_eq!(rt; told(check_byte_grid(b"roof", roof(), 5)), Err(13));
    assert_eq!(rt; told(check_byte_grid(b"", roof(), 6)), Err(5));
    assert_eq!(rt;
        told(check_byte_grid(b"abcdefghijklmnop", roof(), 6)),
        Ok(())
    );
    assert_eq!(rt;
        told(check_byte_grid(b"abcdefghijklmnopq", roof(), 6)),
        Err(5)
    );
    assert_eq!(rt;
        told(check_byte_grid(b"a", along_x(1000000, 1000000), 1)),
        Ok(())
    );
    assert_eq!(rt;
        told(check_byte_grid(b"a", along_x(1000000, 1000001), 2)),
        Err(6)
    );
    assert_eq!(rt; told(check_byte_grid(b"a", along_x(1, 0), 0)), Err(6));
    assert_eq!(rt;
        told(check_byte_grid(b"a", along_x(0, 65535), 65536)),
        Ok(())
    );
    assert_eq!(rt;
        told(check_byte_grid(b"a", along_x(0, 65536), 65537)),
        Err(10)
    );
}

#[test]
fn byte_grid_calls(rt: HostRuntime) {
    let bytes = [0, 254, 255, 7, 8, 9];
    let mut grid = make_byte_grid(b"roof", roof(), &bytes);
    assert_eq!(rt;
        told(grid.look(0, Point { x: 1, y: 0, t: 5 })),
        Ok(Some(254))
    );
    assert_eq!(rt; told(grid.look(0, Point { x: 2, y: 0, t: 0 })), Ok(None));
    assert_eq!(rt; told(grid.look(0, Point { x: 2, y: 1, t: 0 })), Ok(Some(9)));
    assert_eq!(rt; told(grid.look(0, Point { x: 3, y: 1, t: 0 })), Err(15));
    assert_eq!(rt; told(grid.look(1, Point { x: 0, y: 0, t: 0 })), Err(14));
    assert_eq!(rt; told(grid.strip(0, 0, &[1, 2, 3])), Err(16));
    assert_eq!(rt; told(grid.strip(1, 0, &[1, 2, 3])), Err(14));
    assert_eq!(rt; make_byte_grid(b"2roof", roof(), &bytes).count(), 0);
}

#[test]
fn ramp_makings(rt: HostRuntime) {
    let flat = Slopes { x: 0, y: 0, t: 0 };
    assert_eq!(rt; told(check_ramp(b"roof", roof(), flat, 100000000)), Ok(()));
    assert_eq!(rt; told(check_ramp(b"roof", roof(), flat, 100000001)), Err(6));
    assert_eq!(rt; told(check_ramp(b"roof", roof(), flat, -100000001)), Err(6));
    assert_eq!(rt;
        told(check_ramp(
            b"roof",
            roof(),
            Slopes {
                x: 100,
                y: -100,
                t: 100,
            },
            0,
        )),
        Ok(())
    );
    assert_eq!(rt;
        told(check_ramp(b"roof", roof(), Slopes { x: 0, y: 0, t: 101 }, 0)),
        Err(6)
    );
    assert_eq!(rt;
        told(check_ramp(
            b"roof",
            roof(),
            Slopes {
                x: -101,
                y: 0,
                t: 0,
            },
            0,
        )),
        Err(6)
    );
    assert_eq!(rt; told(check_ramp(b"ro of", roof(), flat, 0)), Err(5));
    assert_eq!(rt; told(check_ramp(b"a", along_x(0, 65535), flat, 0)), Ok(()));
    assert_eq!(rt; told(check_ramp(b"a", along_x(0, 65536), flat, 0)), Err(10));
}

#[test]
fn ramp_calls(rt: HostRuntime) {
    let mut ramp = make_ramp(b"roof", roof(), Slopes { x: 2, y: -3, t: 5 }, 7);
    assert_eq!(rt; span(ramp.describe(0)), Some((4, 11)));
    assert_eq!(rt; told(ramp.look(0, Point { x: 2, y: 1, t: 9 })), Ok(Some(8)));
    assert_eq!(rt; told(ramp.look(0, Point { x: 0, y: 2, t: 0 })), Err(15));
    assert_eq!(rt; told(ramp.look(1, Point { x: 0, y: 0, t: 0 })), Err(14));
    assert_eq!(rt; told(ramp.strip(0, 0, &[1, 2, 3])), Err(16));
    assert_eq!(rt;
        make_ramp(b"roof", roof(), Slopes { x: 101, y: 0, t: 0 }, 7).count(),
        0
    );
}
