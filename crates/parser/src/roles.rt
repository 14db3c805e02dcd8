ghost use Rattle.std.specs.Prelude.{◌≡◌};
ghost use Rattle.parser.specs.Roles.{operator as operator_role, opening as opening_role, folding as folding_role};

use lexer::Symbol;
use syntax::{Arithmetic, Binary, Comparison, Fold, Logic, Reduce, Unary};

/// An operator between two operands, and its level: the tightest is 0.
#[derive(Clone, Copy)]
pub struct Operator {
    pub level: usize,
    pub binary: Binary,
}

/// What stands before an expression in round brackets.
#[derive(Clone, Copy)]
pub enum Function {
    Abs,
    Over(Reduce),
}

/// What a symbol begins where an operand is due.
#[derive(Clone, Copy)]
pub enum Opening {
    Round,
    Truth(bool),
    Prefix(Unary),
    Function(Function),
}

/// The operator that a symbol is between two operands.
pub fn operator_of(s: Symbol) -> Option<Operator>
    ensures { result ≡ operator_role s }
{
    let (level, binary) = match s {
        Symbol::Star => (0, Binary::Numbers(Arithmetic::Multiply)),
        Symbol::Slash => (0, Binary::Numbers(Arithmetic::Divide)),
        Symbol::Plus => (1, Binary::Numbers(Arithmetic::Plus)),
        Symbol::Minus => (1, Binary::Numbers(Arithmetic::Subtract)),
        Symbol::Equal => (2, Binary::Compares(Comparison::Equal)),
        Symbol::Unequal => (2, Binary::Compares(Comparison::Unequal)),
        Symbol::Less => (2, Binary::Compares(Comparison::Less)),
        Symbol::AtMost => (2, Binary::Compares(Comparison::AtMost)),
        Symbol::Greater => (2, Binary::Compares(Comparison::Greater)),
        Symbol::AtLeast => (2, Binary::Compares(Comparison::AtLeast)),
        Symbol::And => (3, Binary::Truths(Logic::And)),
        Symbol::Or => (4, Binary::Truths(Logic::Or)),
        Symbol::Xor => (4, Binary::Truths(Logic::Xor)),
        Symbol::Overlay => (5, Binary::Overlay),
        _ => return None,
    };
    Some(Operator { level, binary })
}

/// What a symbol begins where an operand is due: brackets, a truth word, a prefix or a function.
pub fn opening_of(s: Symbol) -> Option<Opening>
    ensures { result ≡ opening_role s }
{
    match s {
        Symbol::Open => Some(Opening::Round),
        Symbol::True => Some(Opening::Truth(true)),
        Symbol::False => Some(Opening::Truth(false)),
        Symbol::Minus => Some(Opening::Prefix(Unary::Minus)),
        Symbol::Not => Some(Opening::Prefix(Unary::Not)),
        Symbol::Abs => Some(Opening::Function(Function::Abs)),
        Symbol::Add => Some(Opening::Function(Function::Over(Reduce::Whole(Fold::Sum)))),
        Symbol::Min => Some(Opening::Function(Function::Over(Reduce::Whole(Fold::Least)))),
        Symbol::Max => Some(Opening::Function(Function::Over(Reduce::Whole(Fold::Greatest)))),
        Symbol::Count => Some(Opening::Function(Function::Over(Reduce::Count))),
        Symbol::SomeOf => Some(Opening::Function(Function::Over(Reduce::Whole(Fold::Any)))),
        Symbol::AllOf => Some(Opening::Function(Function::Over(Reduce::Whole(Fold::Every)))),
        _ => None,
    }
}

/// How a condense form gathers, by the symbol after `condense`.
pub fn fold_of(s: Symbol) -> Option<Fold>
    ensures { result ≡ folding_role s }
{
    match s {
        Symbol::Plus => Some(Fold::Sum),
        Symbol::Min => Some(Fold::Least),
        Symbol::Max => Some(Fold::Greatest),
        Symbol::And => Some(Fold::Every),
        Symbol::Or => Some(Fold::Any),
        _ => None,
    }
}
