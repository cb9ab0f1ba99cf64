//! What is true of every list of rows.

ghost use Rattle.s3r_versions.specs.Laws.{IsStrict, RanksVersions, LatestIsGreatest, LatestIsThere, StaysListed, StaysOnce, AddsOne, FindsIt, FindsOthers};
ghost use Rattle.s3r_versions.specs.Laws.{RemovalKeepsOrder, RemovalFinds, RemovalEmpties, ChangeKeepsOrder, ChangeFinds};
ghost use Rattle.s3r_versions.specs.Laws.{WritesKeepPlaces, GreaterTagsWin, GreaterHoldWins, FirstTagsStay, FirstHoldStays};
ghost use Rattle.s3r_versions.specs.Laws.{AddingCommutesWithChange, AddingCommutesWithChoice, RemovalCommutesWithChange, StaysRising, KeepsId, KeepsIdOnce, LeastIsFound};
ghost use Rattle.s3r_versions.specs.PageLaws.{ListsInOrder, ListsThose, ListsEach, CutPagesAreFull, PagesFollow};

/// The listing order is one, the latest row is the greatest of its key, and a row goes to its place.
pub fn rows_are_ordered<B>()
    ensures strict { IsStrict B }
    ensures ranks_versions { RanksVersions B }
    ensures latest_is_greatest { LatestIsGreatest B }
    ensures latest_is_there { LatestIsThere B }
    ensures stays_listed { StaysListed B }
    ensures stays_once { StaysOnce B }
    ensures adds_one { AddsOne B }
    ensures finds_it { FindsIt B }
    ensures finds_others { FindsOthers B }
{}

/// Rows that are removed or changed stay in order, and the others are as before.
pub fn changes_keep_order<B>()
    ensures removal_keeps_order { RemovalKeepsOrder B }
    ensures removal_finds { RemovalFinds B }
    ensures removal_empties { RemovalEmpties B }
    ensures change_keeps_order { ChangeKeepsOrder B }
    ensures change_finds { ChangeFinds B }
{}

/// A write of tags or a hold with a greater stamp replaces another, whatever their order.
pub fn greater_stamp_wins<B>()
    ensures keep_places { WritesKeepPlaces B }
    ensures tags { GreaterTagsWin B }
    ensures hold { GreaterHoldWins B }
    ensures first_tags { FirstTagsStay B }
    ensures first_hold { FirstHoldStays B }
{}

/// It is one whether rows are changed or left out before another is added or removed, or after.
pub fn order_of_changes_is_free<A, B>()
    ensures adding_and_change { AddingCommutesWithChange A B }
    ensures adding_and_choice { AddingCommutesWithChoice B }
    ensures removal_and_change { RemovalCommutesWithChange A B }
{}

/// Removed ids rise, each once, and the next of them is found.
pub fn removed_ids_rise()
    ensures stays_rising { StaysRising }
    ensures keeps_id { KeepsId }
    ensures keeps_id_once { KeepsIdOnce }
    ensures least_is_found { LeastIsFound }
{}

/// Pages are sorted and complete, and follow one another without a gap.
pub fn pages_are_complete<B>()
    ensures in_order { ListsInOrder B }
    ensures those { ListsThose B }
    ensures each { ListsEach B }
    ensures full { CutPagesAreFull B }
    ensures follow { PagesFollow B }
{}
