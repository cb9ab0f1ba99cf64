// Requests taken from the input, answered in turn.
ghost use Rattle.std.specs.Prelude.{◌≡◌, ◌⊎◌, ◌≤◌, ◌++◌, ℕ, List, length, if◌then◌else◌, Some, None, IsTrue, IfOk, IfErr};
ghost use Rattle.s3r_world.specs.Outside.{KeepsShape, KeepsVolumes, NoneFalls};
ghost use Rattle.s3r_desk.specs.Events.{Events};
ghost use Rattle.s3r_desk.specs.Keeping.{Keeps, AreNumbered, AreTied};
ghost use Rattle.s3r_service.specs.Served.{HasCause, Served};
ghost use Rattle.s3r_service.specs.Serving.{Says, Replies, AnswersOne, Serves, Limits};

use crate::sending::emit_all;
use crate::stop::{Ending, Stop, stop_of};
use s3r_api::{answer_bytes, framing_problem, is_head, problem_bytes, to_request};
use s3r_desk::Desk;
use s3r_http::{Buffer, RawRequest, has_more, read_request};
use s3r_routes::Routes;
use s3r_world::World;
use std::alloc::{AllocError, Global};

// So many requests are served.
const REQUESTS: u64 = 65_536;

// Puts out an answer, where there was memory for it.
fn say<W: World>(world: &mut W, reply: Result<Vec<u8>, AllocError>) -> Result<(), Stop>
    ensures told { IsTrue W.tells → (text : List ℕ) → IfOk reply (λ bytes. bytes.items ≡ text) → Says text result (W.outside world.old) (W.outside world.new) }
    ensures stop { IfErr result (λ stop. (stop ≡ Stop.Output) ⊎ (stop ≡ Stop.OutOfMemory)) }
    ensures cause { IfErr result (λ stop. HasCause stop (W.faults world.old) (W.faults world.new)) }
    ensures counts { NoneFalls (W.faults world.old) (W.faults world.new) }
    ensures goes { W.goes world.old world.new }
    ensures shape { KeepsShape (W.shape world.old) (W.shape world.new) }
{
    let text = reply?;
    emit_all(world, &text)?;
    Ok(())
}

// Makes a request's step, and writes its answer.
fn reply_to<W: World>(
    alloc: Global,
    world: &mut W,
    routes: &Routes,
    desk: &mut Desk,
    raw: &RawRequest,
) -> Result<Vec<u8>, AllocError>
    requires volumes { length desk.old.stores.items ≤ (W.shape world.old).volumes }
    requires few { length desk.old.stores.items ≤ 8 }
    requires numbered { AreNumbered desk.old.stores.items }
    requires tied { IsTrue W.tells → AreTied desk.old.stores.items (W.outside world.old) }
    requires small { length raw.now.body ≤ 4194304 }
    ensures told { IsTrue W.tells → (before : Events) → Keeps before desk.old.stores.items (W.outside world.old) →
        Replies (length desk.old.stores.items) (W.shape world.old).room before raw.now result desk.new.stores.items
        (W.outside world.old) (W.outside world.new) (W.faults world.old) (W.faults world.new) }
    ensures count { length desk.new.stores.items ≡ length desk.old.stores.items }
    ensures numbered { AreNumbered desk.new.stores.items }
    ensures counts { NoneFalls (W.faults world.old) (W.faults world.new) }
    ensures goes { W.goes world.old world.new }
    ensures shape { KeepsShape (W.shape world.old) (W.shape world.new) }
{
    match to_request(alloc, routes, raw) {
        Ok(request) => {
            let answer = desk.respond(alloc, world, request);
            answer_bytes(alloc, &answer, is_head(raw), raw.last)
        }
        Err(problem) => problem_bytes(alloc, problem, is_head(raw), raw.last),
    }
}

// Answers a request.
fn answer_one<W: World>(
    alloc: Global,
    world: &mut W,
    routes: &Routes,
    desk: &mut Desk,
    raw: &RawRequest,
) -> Result<(), Stop>
    requires volumes { length desk.old.stores.items ≤ (W.shape world.old).volumes }
    requires few { length desk.old.stores.items ≤ 8 }
    requires numbered { AreNumbered desk.old.stores.items }
    requires tied { IsTrue W.tells → AreTied desk.old.stores.items (W.outside world.old) }
    requires small { length raw.now.body ≤ 4194304 }
    ensures told { IsTrue W.tells → (before : Events) → Keeps before desk.old.stores.items (W.outside world.old) →
        AnswersOne (length desk.old.stores.items) (W.shape world.old).room before raw.now result desk.new.stores.items
        (W.outside world.old) (W.outside world.new) (W.faults world.old) (W.faults world.new) }
    ensures count { length desk.new.stores.items ≡ length desk.old.stores.items }
    ensures numbered { AreNumbered desk.new.stores.items }
    ensures stop { IfErr result (λ stop. (stop ≡ Stop.Output) ⊎ (stop ≡ Stop.OutOfMemory)) }
    ensures cause { IfErr result (λ stop. HasCause stop (W.faults world.old) (W.faults world.new)) }
    ensures counts { NoneFalls (W.faults world.old) (W.faults world.new) }
    ensures goes { W.goes world.old world.new }
    ensures shape { KeepsShape (W.shape world.old) (W.shape world.new) }
{
    let reply = reply_to(alloc, world, routes, desk, raw);
    say(world, reply)
}

// No further request is read behind the last one.
fn ending_after(last: bool) -> Option<Ending>
    ensures { result ≡ (if last then Some Ending.Over else None) }
{
    if last { Some(Ending::Over) } else { None }
}

// Takes one request, and answers it. It says where no further one is read.
fn serve_one<W: World>(
    alloc: Global,
    world: &mut W,
    routes: &Routes,
    buffer: &mut Buffer,
    desk: &mut Desk,
) -> Result<Option<Ending>, Stop>
    requires volumes { length desk.old.stores.items ≤ (W.shape world.old).volumes }
    requires few { length desk.old.stores.items ≤ 8 }
    requires numbered { AreNumbered desk.old.stores.items }
    requires tied { IsTrue W.tells → AreTied desk.old.stores.items (W.outside world.old) }
    ensures told { IsTrue W.tells → (before : Events) → Keeps before desk.old.stores.items (W.outside world.old) →
        Serves (length desk.old.stores.items) (W.shape world.old).room before result (buffer.old ++ (W.outside world.old).input)
        (buffer.new ++ (W.outside world.new).input) (W.outside world.new).input desk.new.stores.items
        (W.outside world.old) (W.outside world.new) (W.faults world.old) (W.faults world.new) }
    ensures count { length desk.new.stores.items ≡ length desk.old.stores.items }
    ensures numbered { AreNumbered desk.new.stores.items }
    ensures cause { IfErr result (λ stop. HasCause stop (W.faults world.old) (W.faults world.new)) }
    ensures counts { NoneFalls (W.faults world.old) (W.faults world.new) }
    ensures goes { W.goes world.old world.new }
    ensures shape { KeepsShape (W.shape world.old) (W.shape world.new) }
{
    match read_request(alloc, world, buffer) {
        Ok(None) => Ok(Some(Ending::Over)),
        Ok(Some(raw)) => {
            answer_one(alloc, world, routes, desk, &raw)?;
            Ok(ending_after(raw.last))
        }
        Err(fault) => match framing_problem(fault) {
            Some(problem) => {
                say(world, problem_bytes(alloc, problem, false, true))?;
                Ok(Some(Ending::Refused))
            }
            None => Err(stop_of(fault)),
        },
    }
}

// Whether the input goes on behind the last request.
fn ending_behind<W: World>(world: &mut W, buffer: &mut Buffer) -> Result<Ending, Stop>
    ensures told { IsTrue W.tells → Limits result (buffer.old ++ (W.outside world.old).input) (W.outside world.new).input }
    ensures kept { IsTrue W.tells → buffer.new ++ (W.outside world.new).input ≡ buffer.old ++ (W.outside world.old).input }
    ensures connections { IsTrue W.tells → (W.outside world.new).connections ≡ (W.outside world.old).connections }
    ensures volumes { IsTrue W.tells → KeepsVolumes (W.outside world.old) (W.outside world.new) }
    ensures cause { IfErr result (λ stop. HasCause stop (W.faults world.old) (W.faults world.new)) }
    ensures counts { NoneFalls (W.faults world.old) (W.faults world.new) }
    ensures goes { W.goes world.old world.new }
    ensures shape { KeepsShape (W.shape world.old) (W.shape world.new) }
{
    match has_more(world, buffer) {
        Ok(true) => Ok(Ending::Limit),
        Ok(false) => Ok(Ending::Over),
        Err(fault) => Err(stop_of(fault)),
    }
}

/// Serves the requests of the input.
pub fn serve<W: World>(alloc: Global, world: &mut W, regions: u32) -> Result<Ending, Stop>
    requires volumes { regions ≡ (W.shape world.old).volumes }
    requires few { regions ≤ 8 }
    ensures served { IsTrue W.tells → Served regions (W.shape world.old).room result (W.outside world.old) (W.outside world.new) (W.faults world.old)
        (W.faults world.new) }
    ensures cause { IfErr result (λ stop. HasCause stop (W.faults world.old) (W.faults world.new)) }
    ensures counts { NoneFalls (W.faults world.old) (W.faults world.new) }
    ensures goes { W.goes world.old world.new }
    ensures shape { KeepsShape (W.shape world.old) (W.shape world.new) }
{
    let mut buffer = Buffer::new(alloc);
    let routes = Routes::new(alloc)?;
    let mut desk = Desk::new(alloc, regions)?;
    for _ in 0..REQUESTS {
        if let Some(ending) = serve_one(alloc, world, &routes, &mut buffer, &mut desk)? {
            return Ok(ending);
        }
    }
    ending_behind(world, &mut buffer)
}
