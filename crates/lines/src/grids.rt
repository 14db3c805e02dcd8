ghost use Rattle.std.specs.Prelude.{◌≡◌};
ghost use Rattle.lines.specs.Grids.{has_t, has_y};

/// The axes that a grid line writes: x, and perhaps others.
#[derive(Clone, Copy)]
pub(crate) enum Axes {
    X,
    Xy,
    Xt,
    Xyt,
}

impl Axes {
    pub(crate) fn has_y(self) -> bool
        ensures { result ≡ has_y self }
    {
        matches!(self, Axes::Xy | Axes::Xyt)
    }

    pub(crate) fn has_t(self) -> bool
        ensures { result ≡ has_t self }
    {
        matches!(self, Axes::Xt | Axes::Xyt)
    }
}

/// What a grid line says of its cells.
#[derive(Clone, Copy)]
pub(crate) enum Sort {
    Numbers,
    Truths,
}
