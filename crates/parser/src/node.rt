use coverage::{Axis, Range};
use std::alloc::AllocError;
use syntax::{Binary, Fold, Reduce, Unary};

/// A part of the text: the byte at which it begins, and its length.
#[derive(Clone, Copy)]
pub struct Part {
    pub place: usize,
    pub length: usize,
}

/// An item, and at most so many more, which stand in the first slots.
pub struct Few<T, const MORE: usize> {
    pub first: T,
    pub more: [Option<T>; MORE],
}

impl<T: Copy, const MORE: usize> Clone for Few<T, MORE> {
    ghost use Rattle.std.specs.Prelude.{◌≡◌, ⊤};

    ghost is_clone = { λ x y. y ≡ x };

    ghost is_infallible = { λ _. ⊤ };

    fn clone(&self) -> Result<Self, AllocError> {
        Ok(*self)
    }
}

impl<T: Copy, const MORE: usize> Copy for Few<T, MORE> {}

/// An iterator of a form: its word, its axis, and the coordinates that it goes through.
#[derive(Clone, Copy)]
pub struct Iteration {
    pub word: Part,
    pub axis: Axis,
    pub range: Range,
}

/// The iterators of a form: one to three.
pub type Iterations = Few<Iteration, 2>;

/// A binding: the word after the `$`, which stands just before it, and the name of the coverage.
#[derive(Clone, Copy)]
pub struct Binding {
    pub word: Part,
    pub coverage: Part,
}

/// The bindings of a query: one to four.
pub type Bindings = Few<Binding, 3>;

/// The constructs of an expression. Operands are told by the number of their node, in the order of the
/// text; a subset entry has first what it is applied to. The mark of an entry says that its axis stands
/// earlier in the same bracket. A condense with `where` is a construct of its own, as in the trees.
#[derive(Clone, Copy)]
pub enum Construct {
    Numeral(u32),
    Truth(bool),
    Name(Part),
    Iterator(Part),
    Unary(Unary, usize),
    Reduce(Reduce, usize),
    Binary(Binary, usize, usize),
    Trim(bool, Axis, Range, usize),
    Slice(bool, Axis, usize, usize),
    Condense(Fold, Iterations, usize),
    CondenseWhere(Fold, Iterations, usize, usize),
    Form(Iterations, usize),
}

/// A construct and the byte where its text begins.
#[derive(Clone, Copy)]
pub struct Node {
    pub place: usize,
    pub construct: Construct,
}
