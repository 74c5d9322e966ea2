//! The assembler of one sender's fragments.

ghost use Rattle.std.specs.Prelude.{◌≡◌, ◌≤◌, ◌<◌, ◌+◌};
ghost use Rattle.std.specs.Prelude.{◌++◌, ◌↔◌, List, ℕ, None, Some, Ok};
ghost use Rattle.std.specs.Prelude.{length, IfOk, IfSome, OnErr, IsSome, IsNone};
ghost use Rattle.std.specs.Result.{result_err};
ghost use Rattle.gh_base.specs.RpcMessage.{header_of, payload_of};
ghost use Rattle.gh_base.specs.RpcAssembly.{begun, continuation_fault, continued, fault_of, fed};
ghost use Rattle.gh_base.specs.RpcAssembly.{fragment_fault, header_fault, progress_of_kind};
ghost use Rattle.gh_rpc.specs.Assembler.{progress_in, progress_with};
ghost use Rattle.gh_rpc.specs.Assembler.{HasRoom, IsLaidOut, IsUnfinished};

use crate::header::read_header;
use arrayvec::ArrayVec;
use gh_base::{
    BoundedSequence, FRAGMENT_BYTES, FRAGMENT_HEADER_BYTES, FRAGMENT_PAYLOAD_BYTES,
    FRAGMENT_VERSION, FURTHER_FRAGMENTS, FragmentKind, Header, MESSAGE_PAYLOAD_BYTES, Message,
    RpcFault,
};
use std::marker::Model;

/// The numbers of the open message.
#[derive(Clone, Copy, Debug)]
struct Numbers {
    id: u32,
    sequence: u16,
    /// The fragments that are still to come.
    lacking: u8,
}

type Buffer = ArrayVec<u8, MESSAGE_PAYLOAD_BYTES>;

/// At most one open message, in buffers of fixed size. No call takes memory.
#[derive(Debug, Drop)]
pub struct Assembler {
    numbers: Option<Numbers>,
    payload: Buffer,
}

impl Model for Assembler {
    ghost use Rattle.std.specs.Prelude.{Option};
    ghost use Rattle.gh_base.specs.RpcAssembly.{Progress};
    ghost use Rattle.gh_rpc.specs.Assembler.{progress_in, IsLaidOut};

    ghost Value = { Option Progress };

    ghost view = { λ a. progress_in a.numbers a.payload.items };

    ghost invariant = { λ a. IsLaidOut a.numbers a.payload.items };
}

/// Why the bytes are no fragment.
fn fragment_fault(fragment: &[u8]) -> Option<RpcFault>
    ensures { result ≡ fragment_fault fragment.now }
{
    if fragment.len() < FRAGMENT_HEADER_BYTES {
        Some(RpcFault::TooShort)
    } else if fragment.len() > FRAGMENT_BYTES {
        Some(RpcFault::TooLong)
    } else if fragment[0] != FRAGMENT_VERSION {
        Some(RpcFault::BadVersion)
    } else {
        None
    }
}

/// Why a continuation doesn't go on with the open message.
fn continuation_fault(numbers: Option<Numbers>, header: Header) -> Option<RpcFault>
    ensures { (payload : List ℕ) →
        result ≡ continuation_fault (progress_in numbers payload) header }
{
    match numbers {
        None => Some(RpcFault::BadType),
        Some(numbers) => {
            if header.sequence != numbers.sequence {
                Some(RpcFault::WrongSequence)
            } else if header.id != numbers.id {
                Some(RpcFault::WrongId)
            } else {
                None
            }
        }
    }
}

/// Why a fragment with this header can't come now.
fn header_fault(numbers: Option<Numbers>, header: Header) -> Option<RpcFault>
    ensures { (payload : List ℕ) → result ≡ header_fault (progress_in numbers payload) header }
{
    match header.kind {
        FragmentKind::Continuation => continuation_fault(numbers, header),
        FragmentKind::Request => {
            if header.further > FURTHER_FRAGMENTS {
                Some(RpcFault::TooManyFragments)
            } else {
                None
            }
        }
        FragmentKind::Reply => Some(RpcFault::BadType),
        FragmentKind::Notification => Some(RpcFault::BadType),
    }
}

/// The header of a fragment that can come now.
#[tactic(auto, unfolding(gh_base::specs::RpcAssembly::fault_of))]
fn check(numbers: Option<Numbers>, fragment: &[u8]) -> Result<Header, RpcFault>
    ensures header { IfOk result (λ header. header ≡ header_of fragment.now) }
    ensures fault { (payload : List ℕ) →
        result_err result ≡ fault_of (progress_in numbers payload) fragment.now }
    ensures least { IfOk result (λ _. FRAGMENT_HEADER_BYTES ≤ length fragment.now) }
    ensures most { IfOk result (λ _. length fragment.now ≤ FRAGMENT_BYTES) }
    ensures fits { (payload : List ℕ) → IfOk result (λ header.
        header_fault (progress_in numbers payload) header ≡ None) }
{
    if let Some(fault) = fragment_fault(fragment) {
        return Err(fault);
    }
    let header = read_header(fragment);
    match header_fault(numbers, header) {
        Some(fault) => Err(fault),
        None => Ok(header),
    }
}

/// Puts bytes behind those in the buffer, where they have room.
fn extend(buffer: &mut Buffer, payload: &[u8])
    requires { length buffer.old.items + length payload.now ≤ MESSAGE_PAYLOAD_BYTES }
    ensures { buffer.new.items ≡ buffer.old.items ++ payload.now }
{
    let _ = buffer.try_extend_from_slice(payload);
}

/// Begins a message with the payload of its request.
fn begin(buffer: &mut Buffer, header: Header, payload: &[u8]) -> Numbers
    requires most { header.further ≤ FURTHER_FRAGMENTS }
    requires room { length payload.now ≤ FRAGMENT_PAYLOAD_BYTES }
    ensures progress { progress_with result buffer.new.items ≡ begun header payload.now }
    ensures has_room { HasRoom result buffer.new.items }
{
    buffer.clear();
    extend(buffer, payload);
    Numbers {
        id: header.id,
        sequence: header.sequence,
        lacking: header.further,
    }
}

/// Goes on with the open message.
fn go_on(buffer: &mut Buffer, numbers: Numbers, payload: &[u8]) -> Numbers
    requires unfinished { IsUnfinished numbers buffer.old.items }
    requires room { length payload.now ≤ FRAGMENT_PAYLOAD_BYTES }
    ensures progress { progress_with result buffer.new.items
        ≡ continued (progress_with numbers buffer.old.items) payload.now }
    ensures has_room { HasRoom result buffer.new.items }
{
    extend(buffer, payload);
    Numbers {
        lacking: numbers.lacking - 1,
        ..numbers
    }
}

/// Puts the payload of a fragment that can come now into the buffer, and gives the numbers then.
fn put(buffer: &mut Buffer, numbers: Option<Numbers>, header: Header, payload: &[u8]) -> Numbers
    requires can_come { header_fault (progress_in numbers buffer.old.items) header ≡ None }
    requires laid_out { IsLaidOut numbers buffer.old.items }
    requires room { length payload.now ≤ FRAGMENT_PAYLOAD_BYTES }
    ensures progress { progress_with result buffer.new.items ≡ progress_of_kind header.kind
        (progress_in numbers buffer.old.items) header payload.now }
    ensures has_room { HasRoom result buffer.new.items }
{
    match (header.kind, numbers) {
        (FragmentKind::Continuation, Some(numbers)) => go_on(buffer, numbers, payload),
        _ => begin(buffer, header, payload),
    }
}

impl Assembler {
    /// An assembler without an open message.
    pub fn new() -> Assembler
        ensures { result ≡ None }
    {
        Assembler {
            numbers: None,
            payload: ArrayVec::new(),
        }
    }

    /// Takes the next fragment, and gives the message of which it is the last; None where the open
    /// message lacks fragments. A request begins a message, and drops the one that was open. A
    /// fault drops the open message too. Where several faults hold, the first in the order of
    /// `RpcFault` is told. It copies the fragment's payload once, and a given message once more.
    #[tactic(auto, unfolding(gh_base::specs::RpcAssembly::fault_of, gh_base::specs::RpcAssembly::progress_of))]
    pub fn feed(&mut self, fragment: &[u8]) -> Result<Option<Message>, RpcFault>
        ensures answer { result ≡ (fed self.old fragment.now).answer }
        ensures after { self.new ≡ (fed self.old fragment.now).opened }

        // when each answer comes
        ensures fault { result_err result ≡ fault_of self.old fragment.now }
        ensures dropped { OnErr result (self.new ≡ None) }
        ensures lacking { IfOk result (λ given. IsNone given ↔ IsSome self.new) }
        ensures wanted { IfSome self.new (λ p. 0 < p.lacking) }
    {
        let before = self.numbers.take();
        let header = check(before, fragment)?;
        let (_, payload) = fragment.split_at(FRAGMENT_HEADER_BYTES);
        let numbers = put(&mut self.payload, before, header, payload);
        if numbers.lacking > 0 {
            self.numbers = Some(numbers);
            return Ok(None);
        }
        Ok(Some(Message {
            id: numbers.id,
            sequence: numbers.sequence,
            payload: BoundedSequence::from_array_vec(self.payload.take()),
        }))
    }
}
