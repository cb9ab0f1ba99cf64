//! What is true of all tags.

ghost use Rattle.s3r_names.specs.Laws.{KeepsTags, MakesSets, KeepsSets};

/// Tags in order are those that were there, and are a set where a set may have them.
pub fn tags_are_put_in_order()
    ensures keeps_tags { KeepsTags }
    ensures makes_sets { MakesSets }
    ensures keeps_sets { KeepsSets }
{}
