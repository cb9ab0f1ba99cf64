//! What is true of a region's jobs.

ghost use Rattle.s3r_batches.specs.JobLaws.{StepsAreAccepted, StepsMeetLimits, ResultsAreOfLines, CompleteHasAll, TokensAreOnce, LinesAreBegunOnce};

/// The command of the next step among the jobs of a lawful history is accepted, and meets the limits of a record.
pub fn steps_are_accepted()
    ensures accepted { StepsAreAccepted }
    ensures limits { StepsMeetLimits }
{}

/// A job has no more results than lines, and where it is Complete each line has its result. No line is begun a second time,
/// and no token is that of two jobs.
pub fn lines_are_done_once()
    ensures results { ResultsAreOfLines }
    ensures complete { CompleteHasAll }
    ensures begun { LinesAreBegunOnce }
    ensures tokens { TokensAreOnce }
{}
