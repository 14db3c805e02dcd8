// The parts of a query's text once it is read: operators, functions, and (in specs/) the tree.
#![tactic(auto)]

/// Prefixes, and the function `abs`, which works cell by cell as they do.
#[derive(Clone, Copy)]
pub enum Unary {
    Minus,
    Not,
    Abs,
}

/// `+ - * /`
#[derive(Clone, Copy)]
pub enum Arithmetic {
    Plus,
    Subtract,
    Multiply,
    Divide,
}

/// `= != < <= > >=`
#[derive(Clone, Copy)]
pub enum Comparison {
    Equal,
    Unequal,
    Less,
    AtMost,
    Greater,
    AtLeast,
}

/// `and or xor`
#[derive(Clone, Copy)]
pub enum Logic {
    And,
    Or,
    Xor,
}

/// The operators between two operands.
#[derive(Clone, Copy)]
pub enum Binary {
    Numbers(Arithmetic),
    Overlay,
    Compares(Comparison),
    Truths(Logic),
}

/// How many values become one: `+ min max and or` of a condense form.
#[derive(Clone, Copy)]
pub enum Fold {
    Sum,
    Least,
    Greatest,
    Every,
    Any,
}

/// The functions over all cells: `add min max all some` are folds, `count` is one more.
#[derive(Clone, Copy)]
pub enum Reduce {
    Whole(Fold),
    Count,
}
