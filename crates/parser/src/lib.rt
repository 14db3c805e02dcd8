// The grammar of queries: a text is read into a table of nodes, or refused at the place where it stops
// being the beginning of any query.
#![tactic(auto)]

pub mod expr;
pub mod fault;
pub mod laws;
pub mod lists;
pub mod node;
pub mod parser;
pub mod roles;
pub mod take;
pub mod text;

pub use laws::texts_say_what_the_grammar_derives;
