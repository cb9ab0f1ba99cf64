//! What is true of two lawful histories that agree.

ghost use Rattle.s3r_arrivals.specs.ArrivalLaws.{CompletedHasArrived, FailedWasRefused, ExhaustedWasGivenUp, NothingIsLost};
ghost use Rattle.s3r_arrivals.specs.ArrivalLaws.{ReceivedWasPrescribed};

/// A completed task was received and applied, and its version stands at its destination unless its id was removed there later. A
/// task failed only by what it came to there, or after eight attempts. Where no task is pending, each that was sent is one of
/// these. Each row that was received was prescribed by its sender, and has the tags and the hold of the greatest stamp.
pub fn what_was_sent_has_arrived()
    ensures completed { CompletedHasArrived }
    ensures failed { FailedWasRefused }
    ensures exhausted { ExhaustedWasGivenUp }
    ensures nothing_lost { NothingIsLost }
    ensures prescribed { ReceivedWasPrescribed }
{}
