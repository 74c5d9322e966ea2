//! The pieces of a text between the bytes of one number.

ghost use Rattle.std.specs.Prelude.{◌≡◌, ◌<◌, ◌∷◌, None, length, IfSome};
ghost use Rattle.std.specs.List.{position};
ghost use Rattle.std.specs.Option.{option_map};
ghost use Rattle.gh_model.specs.Pieces.{is_byte_of, pieces_at, pieces_left};

/// The place of the first such byte.
fn first_place(text: &[u8], byte: u8) -> Option<usize>
    ensures place { result ≡ position (is_byte_of byte) text.now }
    ensures within { IfSome result (λ at. at < length text.now) }
{
    text.iter().position(|here| *here == byte)
}

/// The first piece of a text, and what stands behind the byte that ends it; none where no such byte
/// stands in the text.
#[tactic(auto, using(crate::proofs::PieceLemmas::only_piece, crate::proofs::PieceLemmas::first_piece))]
pub fn split_first(text: &[u8], byte: u8) -> (&[u8], Option<&[u8]>)
    ensures pieces { pieces_at byte text.now
        ≡ result.0.now ∷ pieces_left byte (option_map (λ rest. rest.now) result.1) }
    ensures whole { result.1 ≡ None → result.0.now ≡ text.now }
    ensures shorter { IfSome result.1 (λ rest. length rest.now < length text.now) }
{
    match first_place(text, byte) {
        None => (text, None),
        Some(at) => (&text[..at], Some(&text[at + 1..])),
    }
}
