//! Requests to the resource manager, read, and its replies, written.
#![tactic(auto)]

mod law;
mod memory;
mod reply;
mod request;

pub use gh_base::{MemRequest, Request, RmError};
pub use law::written_request_is_read;
pub use reply::write_reply;
pub use request::{is_request_id, read_request};
