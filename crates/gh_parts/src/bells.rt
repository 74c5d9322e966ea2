//! Changes of doorbells.

ghost use Rattle.std.specs.Prelude.{◌≡◌};
ghost use Rattle.gh_model.specs.Changes.{set_bell};
ghost use Rattle.gh_model.specs.declared.state.State.{State};
ghost use Rattle.gh_parts.specs.BodyChanges.{belled, words_in};
ghost use Rattle.gh_parts.specs.Stands.{Stands};

use crate::body::Body;
use crate::parts::Parts;
use gh_doorbell::Bell;
use gh_model::BellRow;

/// A doorbell with the words of a row.
fn bell_of(row: BellRow) -> Bell
    ensures { result ≡ words_in row }
{
    let mut bell = Bell::new();
    bell.send(row.flags);
    bell.set_mask(row.enable, row.ack);
    bell
}

/// A doorbell's body with the words of a row; any other stays.
fn belled(row: BellRow, body: Body) -> Body
    ensures { result ≡ belled row body }
{
    match body {
        Body::Bell(_) => Body::Bell(bell_of(row)),
        other => other,
    }
}

impl Parts {
    /// A doorbell's words are set.
    pub fn set_bell(&mut self, row: BellRow)
        ghost s: { State }
        requires { Stands self.old s }
        ensures { Stands self.new (set_bell row s) }
    {
        if let Some(index) = self.index(row.serial) {
            let body = self.shares.take(index);
            self.shares.put(index, belled(row, body));
        }
    }
}
