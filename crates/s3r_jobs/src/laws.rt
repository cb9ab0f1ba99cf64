//! What is true of every job and of every list of jobs.

ghost use Rattle.s3r_jobs.specs.LineLaws.{OneAtATime, NextIsBehind};
ghost use Rattle.s3r_jobs.specs.MoveLaws.{EndedStays, StoppingEnds};
ghost use Rattle.s3r_jobs.specs.TurnLaws.{LowestIsLowest, BestIsBest, IsStrict, MakesWayToBetter};

/// A job that has ended has no move, and one that is stopping has its end alone.
pub fn ended_jobs_stay()
    ensures ended { EndedStays }
    ensures stopping { StoppingEnds }
{}

/// Each line is begun once: none while another is, and behind its result the next.
pub fn lines_begin_once()
    ensures one { OneAtATime }
    ensures next { NextIsBehind }
{}

/// Where several jobs are due for the same, the one of the lowest id is found.
pub fn lowest_goes_first()
    ensures { LowestIsLowest }
{}

/// Of the jobs that wait, the one of the greatest priority is found, and of these the one of the lowest id.
pub fn best_goes_first()
    ensures best { BestIsBest }
    ensures strict { IsStrict }
    ensures makes_way { MakesWayToBetter }
{}
