ghost use Rattle.std.specs.Prelude.{ℕ};
ghost use Rattle.checking.specs.Keeps.{RulesKeepTheLimits};
ghost use Rattle.checking.specs.Trees.{CheckedInTurn, EachByItsRule};
ghost use Rattle.language.specs.Iterators.{Ranges};
ghost use Rattle.language.specs.Typing.{Described};

/// What the definitions work out of a tree is what the rules work out of its constructs, each after its
/// operands; a query is checked by its bindings, its body and its own promise in turn; and what a rule
/// accepts of operands within the limits is within them.
#[tactic(auto, unfolding(language::specs::Queries::query_fault))]
pub fn trees_go_by_the_rules()
    ensures rules { (about : Described) (g : Ranges) (place : ℕ) → EachByItsRule about g place }
    ensures checks { CheckedInTurn }
    ensures limits { RulesKeepTheLimits }
{}
