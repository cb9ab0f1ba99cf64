// The laws of runs that start from what others left.
ghost use Rattle.s3r_service.specs.Laws.{FreshIsSound, SoundStays, RunsAreCareful, RunsCompose, NextFinds};

/// Runs in turn, with a crash at any moment of each, are as one run: a run finds of each region what the runs before it
/// committed, or what was in doubt when one was cut off. What a run does is careful, so it leaves regions that agree.
pub fn runs_compose()
    ensures fresh { FreshIsSound }
    ensures sound { SoundStays }
    ensures careful { RunsAreCareful }
    ensures composed { RunsCompose }
    ensures found { NextFinds }
{}
