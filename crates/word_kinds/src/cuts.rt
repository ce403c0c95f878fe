ghost use Rattle.std.specs.Prelude.{◌≡◌, ◌==◌, ◌+◌, ◌∷◌, [], length, IfSome, IfNone};
ghost use Rattle.std.specs.List.{slice_split, position};

/// A text cut at the first place of a byte, which is in neither part. There is no such cut
/// exactly where the text has no such byte, and is the one part that this byte cuts it into.
pub fn cut_at(text: &[u8], byte: u8) -> Option<(&[u8], &[u8])>
    ensures parts { IfSome result (λ parts. slice_split (λ found. found == byte) text.now ≡ parts.0.now ∷ slice_split (λ found. found == byte) parts.1.now) }
    ensures length { IfSome result (λ parts. length parts.0.now + 1 + length parts.1.now ≡ length text.now) }
    ensures none { IfNone result (slice_split (λ found. found == byte) text.now ≡ text.now ∷ []) }
{
    match first_place(text, byte) {
        Some(place) => Some((&text[..place], &text[place + 1..])),
        None => None,
    }
}

fn first_place(text: &[u8], byte: u8) -> Option<usize>
    ensures { result ≡ position (λ found. found == byte) text.now }
{
    text.iter().position(|found| *found == byte)
}
