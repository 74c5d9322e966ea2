//! Frames by the register table.

ghost use Rattle.std.specs.Prelude.{◌≡◌};
ghost use Rattle.gh_model.specs.Registers.{call_of};

use crate::cspace::{cap_copy, cap_delete, cap_revoke, caps_revoke};
use crate::doorbell::{bell_receive, bell_reset, bell_send, bell_set_mask};
use crate::functions::{
    ACTIVATE, AS_LOOKUP, BELL_RECEIVE, BELL_RESET, BELL_SEND, BELL_SET_MASK, CAP_COPY, CAP_DELETE,
    CAP_REVOKE, CAPS_REVOKE, CONFIGURE_PARTITION, CONFIGURE_QUEUE, CREATE, DERIVE, DONATE, EXIT,
    IDENTIFY, MAP, MSGQ_FLUSH, MSGQ_RECV, MSGQ_SEND, RM_ACT, RM_POLL, UNMAP, function,
};
use crate::manager::{rm_act, rm_poll};
use crate::memory::{as_lookup, derive, donate, map, unmap};
use crate::object::{activate, configure_partition, create};
use crate::queue::{configure_queue, msgq_flush, msgq_recv, msgq_send};
use gh_base::{Call, Errno, Frame};

/// The call of a frame. It is refused with -1 where it names no function, then with 1 for a
/// register that must be zero and isn't, then for its shape. Bits of x0 above 31 aren't looked at.
/// It takes no memory.
pub fn read_call(frame: &Frame) -> Result<Call, Errno>
    ensures { result ≡ call_of frame.now }
{
    match function(frame) {
        IDENTIFY => Ok(Call::Identify),
        BELL_SEND => bell_send(frame),
        BELL_SET_MASK => bell_set_mask(frame),
        MSGQ_SEND => msgq_send(frame),
        MSGQ_RECV => msgq_recv(frame),
        MAP => map(frame),
        UNMAP => unmap(frame),
        DONATE => donate(frame),
        CREATE => create(frame),
        CONFIGURE_PARTITION => configure_partition(frame),
        CONFIGURE_QUEUE => configure_queue(frame),
        ACTIVATE => activate(frame),
        CAP_COPY => cap_copy(frame),
        CAP_DELETE => cap_delete(frame),
        CAP_REVOKE => cap_revoke(frame),
        CAPS_REVOKE => caps_revoke(frame),
        BELL_RECEIVE => bell_receive(frame),
        BELL_RESET => bell_reset(frame),
        MSGQ_FLUSH => msgq_flush(frame),
        DERIVE => derive(frame),
        AS_LOOKUP => as_lookup(frame),
        EXIT => Ok(Call::Exit),
        RM_ACT => rm_act(frame),
        RM_POLL => rm_poll(frame),
        _ => Err(Errno::Unimplemented),
    }
}
