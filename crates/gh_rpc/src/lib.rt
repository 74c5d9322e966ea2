//! Fragments of resource manager messages: put together as they come, and made of a message.
#![tactic(auto)]

mod assembler;
mod header;
mod law;
mod message;

pub use assembler::Assembler;
pub use gh_base::{FragmentKind, Header, Message, RpcFault};
pub use header::{header_bytes, read_header};
pub use law::{
    fault_begins_anew, fragments_are_their_message, message_is_given_whole,
    open_message_is_unfinished, stream_gives_its_messages,
};
pub use message::fragments;
