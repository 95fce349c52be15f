//! What is known once all workers of a join have ended and one seat has taken in all others. The
//! functions do nothing.
ghost use Rattle.join_end.specs.AtTheEnd.{EndIsTakenOver, LooksAreFew, NoneIsGivenUp, PairsAreWhole, QuietIsEnded, RowsAreEnded, StoppedIsOver, WorksAdd};

/// What each worker promises of what it did holds of what all did together.
pub fn works_add()
    ensures { WorksAdd }
{}

/// A seat that took in one that is at the end is there itself.
pub fn end_is_taken_over()
    ensures { EndIsTakenOver }
{}

/// A worker that left the build quiet in RUN is at the end.
pub fn quiet_is_ended()
    ensures { QuietIsEnded }
{}

/// Each outer row with a key was probed or given up, once.
pub fn rows_are_ended()
    ensures { RowsAreEnded }
{}

/// Where nobody carried the count past the limit and nobody wanted memory, no row was given up.
pub fn none_is_given_up()
    ensures { NoneIsGivenUp }
{}

/// Then the pairs that the workers found are those of the nested loop, each once, in some order.
pub fn pairs_are_whole()
    ensures { PairsAreWhole }
{}

/// A worker was stopped only where another carried the count past the limit.
pub fn stopped_is_over()
    ensures { StoppedIsOver }
{}

/// The looks of all workers together are within the bound.
pub fn looks_are_few()
    ensures { LooksAreFew }
{}
