// The laws of queries. The functions do nothing and answer nothing: what each says is its contract.
ghost use Rattle.language.specs.Constructs.{ConstructsByExample};
ghost use Rattle.language.specs.Laws.{AnswersDependOnlyOnCellsInside, AnswersHoldTheirCells, CellsAndPointsNumberEachOther, KnownCellsNeverChange};
ghost use Rattle.language.specs.Laws.{NothingNullReadsThePromise, QueriesSeeOnlyWhatTheyBind, ReadsStayWithinThePromise, ValuesLieInTheirSpan};
ghost use Rattle.language.specs.Limits.{AcceptedKeepsTheLimits};
ghost use Rattle.language.specs.Results.{FourPairsBoundEveryResult, QuotientsDropTheFraction};
ghost use Rattle.language.specs.Worked.{WorkedCases};

/// Every cell of an answer is null or a value of the announced kind, within the announced span.
pub fn values_lie_in_their_announced_span()
    ensures { ValuesLieInTheirSpan }
{}

/// The reads of a cell are at most its promise, those of an answer at most the query's.
pub fn reads_stay_within_the_promise()
    ensures { ReadsStayWithinThePromise }
{}

/// Where every known cell of one shelf is the same on another, every known cell of the answer is the same.
pub fn known_cells_never_change()
    ensures { KnownCellsNeverChange }
{}

/// Where every cell is known and no `where` stands, every cell of the answer is known and its reads are
/// the promise exactly.
pub fn promises_are_exact_where_nothing_is_null_or_skipped()
    ensures { NothingNullReadsThePromise }
{}

/// Shelves with the same cells inside their domains give the same cells and the same reads.
pub fn answers_depend_only_on_cells_inside()
    ensures { AnswersDependOnlyOnCellsInside }
{}

/// A check sees only the descriptions, and a run only the cells, of the coverages that the query binds.
pub fn queries_see_only_what_they_bind()
    ensures { QueriesSeeOnlyWhatTheyBind }
{}

/// An answer has a cell for each point of its domain, in their order.
pub fn answers_hold_their_cells_in_order()
    ensures { AnswersHoldTheirCells }
{}

/// What is accepted has its span in bounds with the ends in order, and no more cells and no higher a
/// promise than allowed.
pub fn accepted_parts_and_queries_keep_the_limits()
    ensures { AcceptedKeepsTheLimits }
{}

/// The four pairs of span ends bound every result of `+ - * /`, and no narrower span does.
pub fn four_pairs_of_span_ends_bound_every_result()
    ensures { FourPairsBoundEveryResult }
{}

/// Division drops less than one divisor, toward zero.
pub fn quotients_drop_the_fraction()
    ensures { QuotientsDropTheFraction }
{}

/// The number of a cell and its point determine each other.
pub fn cells_and_points_number_each_other()
    ensures { CellsAndPointsNumberEachOther }
{}

/// The worked cases over a roof of two rows, cell by cell and refusal by refusal.
pub fn worked_cases_come_out()
    ensures { WorkedCases }
{}

/// Every construct by small cases: its cells, spans, reads and refusals.
pub fn each_construct_gives_what_its_rule_says()
    ensures { ConstructsByExample }
{}
