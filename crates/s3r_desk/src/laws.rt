//! What is true of every step.
ghost use Rattle.s3r_desk.specs.Laws.{NoRegionIsMissing};
ghost use Rattle.s3r_desk.specs.Laws.{CarefulEventsKeepAgreement, CarefulEventsCompose, FirstEventsAreCareful};
ghost use Rattle.s3r_desk.specs.Laws.{WhatIsKnownIsThere, TurnsAreCareful, AgreeingIsNotTold};

/// No request is refused since a region isn't there.
pub fn no_region_is_missing()
    ensures { NoRegionIsMissing }
{}

/// Events are careful where each commit began at a region whose history was known and accepted it, a Receive where its task
/// was known to be prescribed and due, and a Settle where its effect was known to be received with that outcome. They lead
/// regions that agree to regions that agree, whatever became of a commit that is in doubt. What happens at a request is
/// careful.
pub fn careful_events_keep_agreement()
    ensures agree { CarefulEventsKeepAgreement }
    ensures compose { CarefulEventsCompose }
    ensures first { FirstEventsAreCareful }
    ensures there { WhatIsKnownIsThere }
    ensures turns { TurnsAreCareful }
{}

/// No two regions that agree are told to disagree.
pub fn agreeing_is_not_told()
    ensures { AgreeingIsNotTold }
{}
