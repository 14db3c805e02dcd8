// The theorem of lives, and cases that show what it speaks of. The functions do nothing and answer nothing:
// what each says is its contract.
ghost use Rattle.lives.specs.OneAnswer.{EveryCallHasOneAnswer};
ghost use Rattle.lives.specs.Example.{SuchALifeIsLed};
ghost use Rattle.lives.specs.Refusals.{RefusalsComeInTurn};
ghost use Rattle.lives.specs.Theorem.{EveryLifeKeepsItsPromises, EveryRunKeepsItsPromises};
ghost use Rattle.lives.specs.Worked.{WorkedCasesOnTheirTexts};

/// Whatever the state and the arguments, a call has an answer and a state after it, and only one of each.
pub fn every_call_has_one_answer()
    ensures { EveryCallHasOneAnswer }
{}

/// From a unit just switched on over any lawful shelf, whatever calls are made: at every step the shelf is
/// its first content with the accepted strips, plans hold what was last accepted into them, what stands is
/// answered as defined, within its span and its promise, known cells never change, and a refused call
/// changes nothing.
pub fn every_life_keeps_its_promises()
    ensures { EveryLifeKeepsItsPromises }
{}

/// The same of one run: whatever life from a unit just switched on led to it, its answer is right.
pub fn every_run_keeps_its_promises()
    ensures { EveryRunKeepsItsPromises }
{}

/// The worked cases over a roof of two rows, from the bytes of their texts to cells, reads and refusals.
pub fn worked_cases_come_out_on_their_texts()
    ensures { WorkedCasesOnTheirTexts }
{}

/// The refusals of a check in their turn, on both sides of each limit of a text.
pub fn refusals_come_in_turn()
    ensures { RefusalsComeInTurn }
{}

/// A life of thirteen calls, accepted and refused, over that roof.
pub fn such_a_life_is_led()
    ensures { SuchALifeIsLed }
{}
