//! A request, read from the input.
ghost use Rattle.std.specs.Prelude.{◌≡◌, ◌≢◌, ◌++◌, ◌≤◌, ◌<◌, ◌⊎◌, ℕ, List, [], true, false, map, length, take, drop, IsTrue, MatchBool, IfOk, IfSome, IfErr, IsErrOf, OnErr};
ghost use Rattle.s3r_world.specs.declared.world.Side.TheVariants as side;
ghost use Rattle.s3r_world.specs.Outside.{KeepsShape, KeepsVolumes, NoneFalls, Rises};
ghost use Rattle.s3r_http.specs.Input.{ReadsOn};
ghost use Rattle.s3r_http.specs.Lines.{line_of};
ghost use Rattle.s3r_http.specs.Request.{AsksBody, SpellsRequest, ReadsSome, BeginsNone};
ghost use Rattle.s3r_http.specs.Refusals.{LinesCause, HeadCause, IsCause};
ghost use Rattle.s3r_http.specs.FramedHeads.{IsFramedHead, IsRawOf};
ghost use Rattle.s3r_http.specs.declared.message.RawRequest.{RawRequest};

use crate::buffer::{Buffer, ReadFault};
use crate::head::{Head, read_head};
use crate::lengths::{Length, length_of};
use crate::lines::{ParsedHead, has_line, is_last, parse_head};
use crate::message::{Field, Fields, HttpFault, RawRequest};
use s3r_names::Bytes;
use s3r_world::World;
use std::alloc::Global;

// A head, and how long the body behind it is.
#[derive(Drop)]
pub struct FramedHead {
    pub head: ParsedHead,
    pub body: usize,
}

// How long the body is that follows header lines.
fn body_length(alloc: Global, fields: &[Field]) -> Result<usize, HttpFault>
    ensures known { IfOk result (AsksBody (map line_of fields.now)) }
    ensures cause { IfErr result (λ fault. LinesCause fault (map line_of fields.now)) }
    ensures input { IsErrOf result HttpFault.Input → ⊥ }
{
    if has_line(fields, b"transfer-encoding") {
        return Err(HttpFault::NotImplemented);
    }
    let Ok(length) = length_of(alloc, fields) else {
        return Err(HttpFault::OutOfMemory);
    };
    match length {
        Length::Wrong => Err(HttpFault::BadLength),
        Length::TooLarge => Err(HttpFault::EntityTooLarge),
        Length::Known(body) => Ok(body),
    }
}

// What a head asks for.
fn framed_head(alloc: Global, bytes: &[u8]) -> Result<FramedHead, HttpFault>
    ensures plan { IfOk result (IsFramedHead bytes.now) }
    ensures cause { IfErr result (λ fault. HeadCause fault bytes.now) }
    ensures input { IsErrOf result HttpFault.Input → ⊥ }
{
    let head = parse_head(alloc, bytes)?;
    match body_length(alloc, &head.fields) {
        Ok(body) => Ok(FramedHead { head, body }),
        Err(fault) => {
            drop(head);
            Err(fault)
        }
    }
}

// Takes input until so many bytes are there, or no more come.
fn fill_to<W: World>(world: &mut W, buffer: &mut Buffer, count: usize) -> Result<bool, ReadFault>
    ensures told { IsTrue W.tells → ReadsOn buffer.old buffer.new (W.outside world.old) (W.outside world.new) }
    ensures kept { take (length buffer.old) buffer.new ≡ buffer.old }
    ensures enough { IfOk result (λ b. b ≡ true → count ≤ length buffer.new) }
    ensures short { IsTrue W.tells → IfOk result (λ b. b ≡ false → length (buffer.new ++ (W.outside world.new).input) < count) }
    ensures waiting { OnErr result (length buffer.new < count) }
    ensures fault { IsErrOf result ReadFault.Input → Rises 1 side.Input (W.faults world.old) (W.faults world.new) }
    ensures counts { NoneFalls (W.faults world.old) (W.faults world.new) }
    ensures goes { W.goes world.old world.new }
    ensures shape { KeepsShape (W.shape world.old) (W.shape world.new) }
{
    'filling: while buffer.len() < count {
        if !buffer.fill(world)? {
            return Ok(false);
        }
    }
    Ok(true)
}

// The request of a head and a body.
fn raw_of(head: ParsedHead, body: Bytes) -> RawRequest
    ensures { IsRawOf head body result }
{
    let last = is_last(head.minor, &head.fields);
    RawRequest {
        method: head.method,
        target: head.target,
        fields: Fields::from_vec(head.fields),
        body,
        last,
    }
}

/// Whether a byte follows. No byte is passed over, and where the buffer holds one, no input is taken.
pub fn has_more<W: World>(world: &mut W, buffer: &mut Buffer) -> Result<bool, HttpFault>
    ensures more { IsTrue W.tells → IfOk result (λ more. MatchBool more (buffer.old ++ (W.outside world.old).input ≢ [])
        (buffer.old ++ (W.outside world.old).input ≡ [])) }
    ensures faults { IfErr result (λ fault. (fault ≡ HttpFault.Input) ⊎ (fault ≡ HttpFault.OutOfMemory)) }
    ensures kept { IsTrue W.tells → buffer.new ++ (W.outside world.new).input ≡ buffer.old ++ (W.outside world.old).input }
    ensures held { buffer.old ≢ [] → (buffer.new ≡ buffer.old) × (world.new ≡ world.old) }
    ensures connections { IsTrue W.tells → (W.outside world.new).connections ≡ (W.outside world.old).connections }
    ensures volumes { IsTrue W.tells → KeepsVolumes (W.outside world.old) (W.outside world.new) }
    ensures fault { IsErrOf result HttpFault.Input → Rises 1 side.Input (W.faults world.old) (W.faults world.new) }
    ensures counts { NoneFalls (W.faults world.old) (W.faults world.new) }
    ensures goes { W.goes world.old world.new }
    ensures shape { KeepsShape (W.shape world.old) (W.shape world.new) }
{
    if buffer.len() > 0 {
        return Ok(true);
    }
    Ok(buffer.fill(world)?)
}

/// Takes the request at the front of the input. None is answered where the input has ended before a byte of a
/// request. After an error the connection isn't read on.
pub fn read_request<W: World>(
    alloc: Global,
    world: &mut W,
    buffer: &mut Buffer,
) -> Result<Option<RawRequest>, HttpFault>
    ensures told { IsTrue W.tells → IfOk result (λ raw. ReadsSome raw (buffer.old ++ (W.outside world.old).input) (buffer.new ++ (W.outside world.new).input)) }
    ensures small { IfOk result (λ raw. IfSome raw (λ asked. length asked.body ≤ 4194304)) }
    // Each refusal has its cause, and no request stands at the front then.
    ensures cause { IsTrue W.tells → IfErr result (λ fault. IsCause fault (buffer.old ++ (W.outside world.old).input)) }
    ensures refused { IsTrue W.tells → IfErr result (λ fault. (fault ≡ HttpFault.Input)
        ⊎ ((fault ≡ HttpFault.OutOfMemory) ⊎ BeginsNone (buffer.old ++ (W.outside world.old).input))) }

    // An error passes over nothing. Where the input failed, what was taken isn't a whole request.
    ensures kept { IsTrue W.tells → OnErr result (buffer.new ++ (W.outside world.new).input ≡ buffer.old ++ (W.outside world.old).input) }
    ensures incomplete { IsTrue W.tells → IsErrOf result HttpFault.Input → (raw : RawRequest) (text rest : List ℕ) → SpellsRequest raw text
        → buffer.new ≡ text ++ rest → ⊥ }

    ensures connections { IsTrue W.tells → (W.outside world.new).connections ≡ (W.outside world.old).connections }
    ensures volumes { IsTrue W.tells → KeepsVolumes (W.outside world.old) (W.outside world.new) }
    ensures fault { IsErrOf result HttpFault.Input → Rises 1 side.Input (W.faults world.old) (W.faults world.new) }
    ensures counts { NoneFalls (W.faults world.old) (W.faults world.new) }
    ensures goes { W.goes world.old world.new }
    ensures shape { KeepsShape (W.shape world.old) (W.shape world.new) }
{
    let length = match read_head(world, buffer)? {
        Head::Found(length) => length,
        Head::Over => return Ok(None),
        Head::Cut => return Err(HttpFault::CutShort),
        Head::TooLong => return Err(HttpFault::HeadTooLong),
    };
    let plan = framed_head(alloc, &buffer.as_slice()[..length])?;
    let whole = length + plan.body;
    if !fill_to(world, buffer, whole)? {
        return Err(HttpFault::CutShort);
    }
    let body = Bytes::from_slice(alloc, &buffer.as_slice()[length..whole])?;
    buffer.pass(whole);
    Ok(Some(raw_of(plan.head, body)))
}
