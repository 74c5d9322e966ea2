//! The laws that join messages and streams of fragments. Each is the contract of a function that
//! does nothing.

ghost use Rattle.std.specs.Prelude.{◌≡◌, ◌∷◌, ◌++◌, ◌↔◌, []};
ghost use Rattle.std.specs.Prelude.{List, ℕ, Option, None, Some, Ok, Err, length};
ghost use Rattle.gh_base.specs.RpcAssembly.{Progress, answers, fed, opened_behind};
ghost use Rattle.gh_base.specs.RpcMessage.{IsMessage, IsWithinFields, fragments_of};
ghost use Rattle.gh_base.specs.declared.fragment.Message.{Message};
ghost use Rattle.gh_base.specs.declared.fragment.RpcFault.{RpcFault};
ghost use Rattle.gh_rpc.specs.Stream.{EndsUnfinished, EndsWith, answers_giving};

/// The fragments that are made of a message are that message.
pub fn fragments_are_their_message()
    ensures { (m : Message) → IsWithinFields m → IsMessage (fragments_of m) m }
{}

/// Whatever was open before, the fragments of a message give it with the last of them, and leave no
/// message open.
pub fn message_is_given_whole()
    ensures given { (opened : Option Progress) (fragments : List (List ℕ)) (m : Message) →
        IsMessage fragments m → answers opened fragments ≡ answers_giving m (length fragments) }
    ensures closed { (opened : Option Progress) (fragments : List (List ℕ)) (m : Message) →
        IsMessage fragments m → opened_behind opened fragments ≡ None }
{}

/// A fragment gives a message exactly where the stream from a new assembler on, up to this
/// fragment, ends with the fragments of this message, however bad those before them were.
pub fn stream_gives_its_messages()
    ensures { (stream : List (List ℕ)) (bytes : List ℕ) (m : Message) →
        ((fed (opened_behind None stream) bytes).answer ≡ Ok (Some m))
        ↔ EndsWith m (stream ++ bytes ∷ []) }
{}

/// A message is open exactly where the stream from a new assembler on ends with its first
/// fragments, and it lacks others.
pub fn open_message_is_unfinished()
    ensures { (stream : List (List ℕ)) (p : Progress) →
        (opened_behind None stream ≡ Some p) ↔ EndsUnfinished p stream }
{}

/// What comes behind a fault gives what it gives to a new assembler.
pub fn fault_begins_anew()
    ensures { (opened : Option Progress) (stream : List (List ℕ)) (bytes : List ℕ)
        (rest : List (List ℕ)) (fault : RpcFault) →
        (fed (opened_behind opened stream) bytes).answer ≡ Err fault →
        answers opened (stream ++ bytes ∷ rest)
        ≡ answers opened stream ++ Err fault ∷ answers None rest }
{}
