// The words of a line.
ghost use Rattle.std.specs.Prelude.{◌≡◌, [], ◌∷◌, Some, None, MatchOption};
ghost use Rattle.std.specs.Str.{bytes_eq};
ghost use Rattle.text.specs.Text.{blank, only, words};

// The first word and what follows it.
pub fn split_word(text: &[u8]) -> Option<(&[u8], &[u8])>
    ensures { MatchOption result (words text.now ≡ []) (λ p. words text.now ≡ p.0.now ∷ words p.1.now) }
{
    let start = text.iter().position(|byte| !is_blank(*byte))?;
    let rest = &text[start..];
    let end = rest.iter().position(|byte| is_blank(*byte));
    Some(rest.split_at(end.unwrap_or(rest.len())))
}

#[tactic(auto, unfolding(crate::specs::Text::blank))]
fn is_blank(byte: u8) -> bool
    ensures { result ≡ blank byte }
{
    matches!(byte, b' ' | b'\t' | b'\r')
}

// The word of a text that is just one word.
pub fn only_word(text: &[u8]) -> Option<&[u8]>
    ensures { MatchOption result (only (λ w. Some w) (words text.now) ≡ None) (λ w. words text.now ≡ w.now ∷ []) }
{
    let (word, rest) = split_word(text)?;
    match split_word(rest) {
        None => Some(word),
        Some(_) => None,
    }
}

// The word is none of those that can stand in its place.
#[derive(Clone, Copy, Debug, PartialEq, Eq)]
pub struct UnknownWord;

// Kept beside `==`, since its contract names `bytes_eq`, by which the formats are defined.
pub fn is_same(word: &[u8], name: &[u8]) -> bool
    ensures { result ≡ bytes_eq word.now name.now }
{
    word == name
}
