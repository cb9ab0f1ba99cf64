//! What is true of every history.

ghost use Rattle.s3r_history.specs.Laws.{RowsAreListed, IdsAreGiven, IdsAreNew, PutIsLatest, MarkerIsLatest, RemovedIsGone};
ghost use Rattle.s3r_history.specs.Laws.{RowsAreWritten, PutRowsAreWritten, FirstGreatestIsOne, NamesAreThose, NoNameTwice};
ghost use Rattle.s3r_history.specs.AgreeLaws.{StaysAtSender, StaysAtReceiver, StaysWithItself, StaysAtReceive, StaysAtOwnReceive};
ghost use Rattle.s3r_history.specs.AgreeLaws.{StaysAtSettle, StaysAtOwnSettle, MayArriveLater, WasReceivedLater, AgreeingIsWithin};
ghost use Rattle.s3r_history.specs.SentLaws.{SentIsShort};

/// A bucket's rows stand in the listing order, no id is one of a later command, the next id is new, what was put last is
/// the latest while the clock runs, what was removed is gone, and tags and holds are those that were first written under
/// the greatest stamp.
pub fn rows_are_listed()
    ensures listed { RowsAreListed }
    ensures given { IdsAreGiven }
    ensures new { IdsAreNew }
    ensures put_is_latest { PutIsLatest }
    ensures marker_is_latest { MarkerIsLatest }
    ensures removed_is_gone { RemovedIsGone }
    ensures written { RowsAreWritten }
    ensures put_written { PutRowsAreWritten }
    ensures one_write { FirstGreatestIsOne }
{}

/// The names that are counted are those of the buckets that are there, each once.
pub fn buckets_are_counted()
    ensures those { NamesAreThose }
    ensures once { NoNameTwice }
{}

/// Regions that agree on what one sent to the other go on to agree: after one command more at either that neither settles a
/// task between them nor receives one, after the effect of a task that may arrive was received, and after a task was settled
/// as it came to. What may arrive, or was received, is so after any further commands.
pub fn agreement_is_kept()
    ensures at_sender { StaysAtSender }
    ensures at_receiver { StaysAtReceiver }
    ensures with_itself { StaysWithItself }
    ensures at_receive { StaysAtReceive }
    ensures at_own_receive { StaysAtOwnReceive }
    ensures at_settle { StaysAtSettle }
    ensures at_own_settle { StaysAtOwnSettle }
    ensures may_arrive_later { MayArriveLater }
    ensures was_received_later { WasReceivedLater }
{}

/// No two regions that agree are told to disagree by their counts.
pub fn agreeing_is_within()
    ensures { AgreeingIsWithin }
{}

/// All that a lawful history prescribed meets the limits of a record.
pub fn sent_is_short()
    ensures { SentIsShort }
{}
