//! Operations on a message of 61 fragments.

use crate::folded;
use arrayvec::ArrayVec;
use gh_base::{BoundedSequence, FRAGMENT_BYTES, MESSAGE_PAYLOAD_BYTES, NoMemory, SHARE_ID};
use gh_rpc::{Assembler, Message, RpcFault, fragments};
use std::alloc::Global;

/// Bytes of the payload: as many as 61 fragments hold.
const PAYLOAD: usize = 14_152;

fn message() -> Message {
    let mut payload: ArrayVec<u8, MESSAGE_PAYLOAD_BYTES> = ArrayVec::new();
    for at in 0..PAYLOAD {
        let _ = payload.try_push((at % 251) as u8);
    }
    Message {
        id: SHARE_ID,
        sequence: 1,
        payload: BoundedSequence::from_array_vec(payload),
    }
}

/// The last byte; 0 where there is none.
pub fn last_byte(bytes: &[u8]) -> u64 {
    bytes.last().map_or(0, |byte| *byte as u64)
}

fn number(answer: Result<Option<Message>, RpcFault>) -> u64 {
    match answer {
        Ok(Some(message)) => last_byte(message.payload.as_slice()),
        Ok(None) => 1,
        Err(fault) => fault as u64,
    }
}

/// Feeds all fragments in order, and folds the answers.
fn feed_all(assembler: &mut Assembler, made: &[ArrayVec<u8, FRAGMENT_BYTES>], mut sum: u64) -> u64 {
    for fragment in made {
        sum = folded(sum, number(assembler.feed(fragment.as_slice())));
    }
    sum
}

/// Assembles the message.
pub fn assemble(alloc: Global, count: u64) -> Result<u64, NoMemory> {
    let made = fragments(alloc, &message())?;
    let mut assembler = Assembler::new();
    let mut sum = 0;
    for _ in 0..count {
        sum = feed_all(&mut assembler, made.as_slice(), sum);
    }
    Ok(sum)
}

/// Makes the fragments of the message.
pub fn take_apart(alloc: Global, count: u64) -> Result<u64, NoMemory> {
    let message = message();
    let mut sum = 0;
    for _ in 0..count {
        let made = fragments(alloc, &message)?;
        sum = folded(
            sum,
            made.last().map_or(0, |last| last_byte(last.as_slice())),
        );
    }
    Ok(sum)
}
