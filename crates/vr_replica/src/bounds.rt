//! How much a replica sends for one event that comes in, at most. Each function is a law: its contract is the statement, and it does
//! nothing.

ghost use Rattle.vr_replica.specs.Bounds.{AnswersAreSingle, DoneIsFew, StepsAreShort, StepsSendFew, StepsWeighLittle, TableRows};

/// Whatever a message of each kind weighs: those that one event has a sound replica send weigh together no more than the table says, by the
/// event's kind and by how many others the group has. So it is on every disk.
pub fn steps_weigh_little<F>()
    ensures { StepsWeighLittle F }
{}

/// One event has a sound replica send so many messages at most: an ask has one answer, and a request goes to each other once.
pub fn steps_send_few<F>()
    ensures { StepsSendFew F }
{}

/// And so many bytes at most: of a sound replica that can be saved, on every disk that reads well.
pub fn steps_are_short<F>()
    ensures { StepsAreShort F }
{}

/// What code does that follows a step of the definitions sends no more messages, where its disk tells; and none where it stops.
pub fn done_is_few()
    ensures { DoneIsFew }
{}

/// The table as numbers, for groups of three and of six, in either version.
pub fn table_rows()
    ensures single { AnswersAreSingle }
    ensures rows { TableRows }
{}
