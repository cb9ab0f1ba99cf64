// The laws of what bytes stand for and of scans.
ghost use Rattle.s3r_journal.specs.Laws.{OneHistory, OneEnd, StandingScans, ScanningStands, FrontBegins};

/// No bytes stand for two histories.
pub fn one_history()
    ensures { OneHistory }
{}

/// Where bytes stand for a history with an end, they do so with one history, one end and one format alone.
pub fn one_end()
    ensures { OneEnd }
{}

/// Scans of bytes that stand for a history find its records in turn, and then its end.
pub fn standing_scans()
    ensures { StandingScans }
{}

/// Bytes of which scans find records in turn, and then an end, stand for the history of these records.
pub fn scanning_stands()
    ensures { ScanningStands }
{}

/// The records that have been read begin each history for which the bytes stand.
pub fn front_begins()
    ensures { FrontBegins }
{}
