//! What is true of every configuration.

ghost use Rattle.s3r_rules.specs.Laws.{OneDecides};

/// At most one rule decides a copy to a bucket, since no two have one priority to it.
pub fn one_rule_decides()
    ensures { OneDecides }
{}
