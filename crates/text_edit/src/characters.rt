//! The characters at the ends of a text.

ghost use Rattle.std.specs.Prelude.{◌≡◌, ◌++◌, [], MatchOption, encode_utf8};

/// The first character of a text and what follows it.
pub(crate) fn first_and_rest(text: &str) -> Option<(char, &str)>
    ensures { MatchOption result (text.now ≡ []) (λ p. text.now ≡ encode_utf8 p.0 ++ p.1.now) }
{
    let mut characters = text.chars();
    let first = characters.next()?;
    Some((first, characters.as_str()))
}

/// The last character of a text and what stands before it.
pub(crate) fn last_and_rest(text: &str) -> Option<(char, &str)>
    ensures { MatchOption result (text.now ≡ []) (λ p. text.now ≡ p.1.now ++ encode_utf8 p.0) }
{
    let mut characters = text.chars();
    let last = characters.next_back()?;
    Some((last, characters.as_str()))
}
