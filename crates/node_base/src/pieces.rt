//! What stands between the slashes of a path's text.
ghost use Rattle.std.specs.Prelude.{◌≡◌, ◌==◌, ◌∷◌, ◌<◌, length, position, IfSome};
ghost use Rattle.std.specs.List.{slice_split};
ghost use Rattle.std.specs.Iterator.{YieldsFirstBy, item_count};
ghost use Rattle.node_base.specs.PathText.{pieces, pieces_left};

/// The pieces of a path's text that are left, first to last.
#[derive(Drop)]
pub struct Pieces<'a> {
    rest: Option<&'a [u8]>,
}

impl<'a> Pieces<'a> {
    /// All pieces of the bytes: none of no bytes.
    pub fn of(bytes: &'a [u8]) -> Pieces<'a>
        ensures { pieces_left result.rest ≡ pieces bytes.now }
    {
        let rest = if bytes.is_empty() { None } else { Some(bytes) };
        Pieces { rest }
    }
}

impl<'a> Iterator for Pieces<'a> {
    type Item = &'a [u8];

    ghost next_gives = { YieldsFirstBy (λ x. x.now) (λ s. pieces_left s.rest) };

    ghost remaining = { item_count (λ s. pieces_left s.rest) };

    fn next(&mut self) -> Option<&'a [u8]> {
        let (piece, rest) = first_piece(self.rest?);
        self.rest = rest;
        Some(piece)
    }
}

/// What stands before the first slash, and what follows it.
#[tactic(auto, using(crate::proofs::TextLemmas::split_at, crate::proofs::TextLemmas::no_split))]
fn first_piece(bytes: &[u8]) -> (&[u8], Option<&[u8]>)
    ensures { slice_split (λ b. b == 47) bytes.now ≡ result.0.now ∷ pieces_left result.1 }
{
    match first_slash(bytes) {
        Some(at) => (&bytes[..at], Some(&bytes[at + 1..])),
        None => (bytes, None),
    }
}

/// Where the first slash stands.
fn first_slash(bytes: &[u8]) -> Option<usize>
    ensures place { result ≡ position (λ b. b == 47) bytes.now }
    ensures inside { IfSome result (λ i. i < length bytes.now) }
{
    bytes.iter().position(|byte| *byte == b'/')
}
