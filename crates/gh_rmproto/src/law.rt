//! The law that joins requests as they are written and as they are read.

ghost use Rattle.std.specs.Prelude.{◌≡◌, Ok};
ghost use Rattle.gh_base.specs.RmLayout.{RequestFits, request_bytes, request_id, request_of};
ghost use Rattle.gh_base.specs.declared.rm.Request.{Request};

/// A request whose numbers are within their fields reads as it was written. The function does
/// nothing; its clause is the law.
pub fn written_request_is_read()
    ensures { (request : Request) → RequestFits request
        → request_of (request_id request) (request_bytes request) ≡ Ok request }
{}
