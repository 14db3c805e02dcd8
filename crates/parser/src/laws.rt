// What texts say, told of the definitions alone. The function does nothing and answers nothing: what it says
// is its contract.
ghost use Rattle.parser.specs.Derived.{TextsSayWhatTheGrammarDerives};

/// A text says a query just where the grammar derives that query from its tokens, within the limits; else it
/// is refused for its length, its tokens, the grammar or the limits, in this order.
pub fn texts_say_what_the_grammar_derives()
    ensures { TextsSayWhatTheGrammarDerives }
{}
