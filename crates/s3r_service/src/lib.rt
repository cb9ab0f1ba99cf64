//! The replication desk as a service: HTTP requests are taken from the input, and each is answered on the output once its
//! command is stable in the volume of its region. The words of the program say over which regions.
#![tactic(auto)]

ghost use Rattle.std.specs.Prelude.{◌≡◌, ◌↔◌, map, string_bytes, Some, IsTrue};
ghost use Rattle.s3r_world.specs.declared.world.Side.TheVariants as side;
ghost use Rattle.s3r_world.specs.Outside.{KeepsShape, NoneFalls, Rises};
ghost use Rattle.s3r_service.specs.Served.{Ran, IsSound, StaysSound, IsStatus};
ghost use Rattle.s3r_service.specs.Words.{Meaning, AreMeant, words_in};

mod laws;
mod sending;
mod serve;
mod stop;
mod words;

pub use laws::runs_compose;
use s3r_world::World;
use serve::serve;
use std::alloc::Global;
use words::read_words;
pub use words::{Place, place_of};

/// The words aren't the program's.
const NOT_MEANT: u8 = 2;

/// Does what the words say, over a world with as many volumes as they say. It answers the status that the program
/// ends with.
pub fn s3r<W: World>(alloc: Global, words: &[String], world: &mut W) -> u8
    ensures meant { (result ≡ 2) ↔ (AreMeant (map string_bytes words.now) ((W.shape world.old).volumes) → ⊥) }
    ensures unmeant { result ≡ 2 → world.new ≡ world.old }
    ensures known { IsStatus (words_in (map string_bytes words.now)) result }

    // Which requests were taken, what each came to, and what a crash at each moment may leave.
    ensures done { IsTrue W.tells → (meaning : Meaning) → words_in (map string_bytes words.now) ≡ Some meaning →
        meaning.place.regions ≡ (W.shape world.old).volumes →
        Ran meaning.task result (W.shape world.old).volumes (W.shape world.old).room (W.outside world.old) (W.outside world.new)
        (W.faults world.old) (W.faults world.new) }

    // Volumes that stand for lawful histories which agree on what each region received of another do so after a crash at any
    // moment.
    ensures sound { IsTrue W.tells → AreMeant (map string_bytes words.now) ((W.shape world.old).volumes)
        → IsSound (W.shape world.old).volumes (W.outside world.old) →
        StaysSound (W.shape world.old).volumes (W.outside world.old) (W.outside world.new) }

    // Each fault of the outside was counted.
    ensures input { result ≡ 3 → Rises 1 side.Input (W.faults world.old) (W.faults world.new) }
    ensures output { result ≡ 4 → Rises 1 side.Output (W.faults world.old) (W.faults world.new) }

    ensures counts { NoneFalls (W.faults world.old) (W.faults world.new) }
    ensures goes { W.goes world.old world.new }
    ensures shape { KeepsShape (W.shape world.old) (W.shape world.new) }
{
    let Some(words) = read_words(words) else {
        return NOT_MEANT;
    };
    if words.regions != world.volumes() {
        return NOT_MEANT;
    }
    match serve(alloc, world, words.regions) {
        Ok(ending) => ending.status(),
        Err(stop) => stop.status(),
    }
}
