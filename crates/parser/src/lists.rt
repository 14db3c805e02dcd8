ghost use Rattle.parser.specs.Reads.{GoesOn};
ghost use Rattle.parser.specs.Lists.{Gives, Fills, Several, IteratorRead, IteratorsRead, BindingRead, BindingsRead};

use crate::node::{Binding, Bindings, Few, Iteration, Iterations};
use crate::take::{eat, expect, take_axis, take_limit, take_variable, take_word, upper_end};
use coverage::Range;
use cursor::Cursor;
use lexer::Symbol;

/// Takes an iterator: a word, an axis, a range.
pub fn iterator(from: &mut Cursor<'_>) -> Result<Iteration, usize>
    ensures on { GoesOn from.old from.new }
    ensures read { IteratorRead from.old from.new result }
{
    let word = take_word(from)?;
    let axis = take_axis(from)?;
    expect(from, Symbol::Open)?;
    let lo = take_limit(from)?;
    expect(from, Symbol::Colon)?;
    let hi = upper_end(from)?;
    Ok(Iteration {
        word,
        axis,
        range: Range { lo, hi },
    })
}

/// Takes a binding: a `$` word, `in`, the name of a coverage in round brackets.
pub fn binding(from: &mut Cursor<'_>) -> Result<Binding, usize>
    ensures on { GoesOn from.old from.new }
    ensures read { BindingRead from.old from.new result }
{
    let word = take_variable(from)?;
    expect(from, Symbol::In)?;
    expect(from, Symbol::Open)?;
    let coverage = take_word(from)?;
    expect(from, Symbol::Close)?;
    Ok(Binding { word, coverage })
}

/// Takes one to three iterators with commas.
pub fn iterators(from: &mut Cursor<'_>) -> Result<Iterations, usize>
    ensures on { GoesOn from.old from.new }
    ensures read { IteratorsRead from.old from.new result }
{
    several(from, iterator)
}

/// Takes one to four bindings with commas.
pub fn bindings(from: &mut Cursor<'_>) -> Result<Bindings, usize>
    ensures on { GoesOn from.old from.new }
    ensures read { BindingsRead from.old from.new result }
{
    several(from, binding)
}

// Takes an item, and after each comma one more, to the number that there may be.
fn several<T: Copy, F: Fn(&mut Cursor<'_>) -> Result<T, usize>, const MORE: usize>(
    from: &mut Cursor<'_>,
    one: F,
) -> Result<Few<T, MORE>, usize>
    requires { F.IsAlwaysCallable one }
    ensures { Several (Gives F.Fn one) MORE from.old from.new result }
{
    let first = one(from)?;
    let mut more = [None; MORE];
    fill(&mut more, from, one)?;
    Ok(Few { first, more })
}

// Fills slots with items, each after a comma, as long as one comes.
// It goes over a slice, since the check knows no size of an array of any `T` that a function makes.
fn fill<T: Copy, F: Fn(&mut Cursor<'_>) -> Result<T, usize>>(
    slots: &mut [Option<T>],
    from: &mut Cursor<'_>,
    one: F,
) -> Result<(), usize>
    requires { F.IsAlwaysCallable one }
    ensures { Fills (Gives F.Fn one) slots.old slots.new from.old from.new result }
{
    for slot in slots {
        if !eat(from, Symbol::Comma) {
            break;
        }
        *slot = Some(one(from)?);
    }
    Ok(())
}
