//! What a query means: its domain, kind, promise and first refusal, its cells and its reads. All of it
//! is told in specs/, where a reader begins with Operators, Spans, Fits, Iterators, Typing and Faults
//! (the check), goes on with Values and Reads (the run) and ends with Queries, the laws (Laws, Limits,
//! Results) and cases worked through (Worked, Constructs).
//! There is no code of check or run here: each function's contract is a law of those definitions.
#![tactic(auto)]

pub mod laws;

pub use laws::{
    accepted_parts_and_queries_keep_the_limits, answers_depend_only_on_cells_inside,
    answers_hold_their_cells_in_order, cells_and_points_number_each_other,
    each_construct_gives_what_its_rule_says, four_pairs_of_span_ends_bound_every_result,
    known_cells_never_change, promises_are_exact_where_nothing_is_null_or_skipped,
    queries_see_only_what_they_bind, quotients_drop_the_fraction, reads_stay_within_the_promise,
    values_lie_in_their_announced_span, worked_cases_come_out,
};
