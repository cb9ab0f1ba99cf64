//! What is true of all spellings.

ghost use Rattle.s3r_record.specs.Laws.{OneSpelling, NoFront, SpellingsAreShort};

/// No two commands are spelled alike, and no spelling begins another's.
pub fn one_spelling()
    ensures one { OneSpelling }
    ensures front { NoFront }
{}

/// The spelling of a command is short enough for a record.
pub fn spelling_is_short()
    ensures { SpellingsAreShort }
{}
