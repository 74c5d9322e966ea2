//! What a live object is.

use gh_base::{Kind, ObjIndex, Serial, Stage};

/// What an object is.
#[derive(Clone, Copy, Debug, PartialEq, Eq)]
pub struct Header {
    pub kind: Kind,
    /// The index of the partition that the object lives in; a boot partition lives in itself.
    pub partition: ObjIndex,
    pub serial: Serial,
    pub stage: Stage,
}
