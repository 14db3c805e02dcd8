/// An entry of the answer area: a value and whether it is known.
// Not an Option: callers lend plain records of these two fields, as the format of answers asks.
#[derive(Clone, Copy)]
pub struct Cell {
    pub value: i32,
    pub known: bool,
}

/// The entry for a cell of an answer: null is 0 and unknown.
impl From<Option<i32>> for Cell {
    ghost use Rattle.lives.specs.Entries.{entry};
    ghost use Rattle.std.specs.Prelude.{◌≡◌};

    ghost from_gives = { λ value cell. cell ≡ entry value };

    fn from(value: Option<i32>) -> Cell {
        match value {
            None => Cell {
                value: 0,
                known: false,
            },
            Some(value) => Cell { value, known: true },
        }
    }
}
