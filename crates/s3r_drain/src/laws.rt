//! What clean turns of the copier come to.

ghost use Rattle.s3r_drain.specs.Drain.{NothingIsDue, OneTurnSettlesTheFirst, TurnsDrain, TheFirstEnded, TheLastArePending};
ghost use Rattle.s3r_drain.specs.Drain.{TurnsSettleTheFirst, TurnsSettleNoOther, TheFirstRises, TurnsKeepAgreement, AllStayAgreed};
ghost use Rattle.s3r_drain.specs.CleanTurns.{CleanTurnsTurn, UndisturbedTurnsAreClean, CleanTurnsInTurn, CleanTurnsEmptyTheQueue};

/// A clean turn of the copier from one region to another settles the first pending task as it came to at the receiver, and
/// changes no other task of any region. So many turns leave so many tasks fewer pending, down to none, and then nothing is due.
pub fn turns_drain()
    ensures due { NothingIsDue }
    ensures one { OneTurnSettlesTheFirst }
    ensures drain { TurnsDrain }
{}

/// Over a lawful history tasks end in turn, so the pending ones are those from the first pending one on. So many turns settle
/// the first so many of them, each in its own turn and as it came to then, and leave all others as they are. Regions that
/// agree go on to agree, so what was settled was received.
pub fn turns_settle_the_first()
    ensures ended { TheFirstEnded }
    ensures last { TheLastArePending }
    ensures settled { TurnsSettleTheFirst }
    ensures others { TurnsSettleNoOther }
    ensures rises { TheFirstRises }
    ensures agree { TurnsKeepAgreement }
    ensures all { AllStayAgreed }
{}

/// A turn of the copier that answers Idle or Settled answers Idle exactly where nothing is due, and else what the first
/// pending task comes to, and its events lead to the histories behind a clean turn. So many of them in a row lead to those
/// behind so many clean turns. A turn is such a one where no fault of its volumes was counted, their rooms have what it
/// commits, they are sound, the regions agree, and there is memory. As many as tasks are pending leave none.
pub fn clean_turns_lead()
    ensures turn { CleanTurnsTurn }
    ensures undisturbed { UndisturbedTurnsAreClean }
    ensures row { CleanTurnsInTurn }
    ensures empty { CleanTurnsEmptyTheQueue }
{}
