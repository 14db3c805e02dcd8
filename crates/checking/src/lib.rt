//! The check's rules: what each construct of a query is, from what its operands are. A rule takes operands
//! that were accepted, and answers the domain, kind and promise of the construct, or the first fault, at the
//! construct's place.
#![tactic(auto)]

pub mod accepted;
pub mod domains;
pub mod fault;
pub mod fits;
pub mod forms;
pub mod kinds;
pub mod laws;
pub mod leaves;
pub mod limits;
pub mod operators;
pub mod query;
pub mod reach;
pub mod subsets;
pub mod typed;

pub use accepted::Accepted;
pub use fault::CheckFault;
pub use forms::{condense_rule, form_rule, iterators_rule};
pub use laws::trees_go_by_the_rules;
pub use leaves::{iterator_rule, name_rule, numeral_rule, truth_rule};
pub use operators::{binary_rule, reduce_rule, unary_rule};
pub use query::query_rule;
pub use reach::Reach;
pub use subsets::{slice_rule, trim_rule};
pub use typed::Typed;
