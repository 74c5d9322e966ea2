//! The hypercalls, each with its registers.

/// A hypercall whose frame is well formed. Sizes, offsets, bases and addresses are in bytes; the
/// bytes of a buffer stay in the frame.
#[derive(Clone, Copy, Debug, PartialEq, Eq)]
pub enum Call {
    Identify,
    Exit,
    BellSend {
        cap: u64,
        flags: u64,
    },
    BellSetMask {
        cap: u64,
        enable: u64,
        ack: u64,
    },
    BellReceive {
        cap: u64,
        clear: u64,
    },
    BellReset {
        cap: u64,
    },
    MsgqSend {
        cap: u64,
        size: u64,
        buffer: u64,
        flags: u64,
    },
    MsgqRecv {
        cap: u64,
        buffer: u64,
        size: u64,
    },
    MsgqFlush {
        cap: u64,
    },
    Map {
        space: u64,
        extent: u64,
        base: u64,
        attributes: u64,
        flags: u64,
        offset: u64,
        size: u64,
    },
    Unmap {
        space: u64,
        extent: u64,
        base: u64,
        flags: u64,
        offset: u64,
        size: u64,
    },
    Donate {
        options: u64,
        from: u64,
        to: u64,
        offset: u64,
        size: u64,
    },
    Derive {
        child: u64,
        parent: u64,
        offset: u64,
        size: u64,
        access: u64,
    },
    AsLookup {
        space: u64,
        address: u64,
    },
    Create {
        partition: u64,
        cspace: u64,
        kind: u64,
    },
    ConfigurePartition {
        cap: u64,
        quota: u64,
    },
    ConfigureQueue {
        cap: u64,
        depth: u64,
        size: u64,
    },
    Activate {
        cap: u64,
    },
    CapCopy {
        cspace: u64,
        source: u64,
        mask: u64,
    },
    CapDelete {
        cspace: u64,
        slot: u64,
    },
    CapRevoke {
        cspace: u64,
        slot: u64,
    },
    CapsRevoke {
        cap: u64,
    },
    RmAct {
        cap: u64,
        vm: u64,
    },
    RmPoll {
        cap: u64,
    },
}
