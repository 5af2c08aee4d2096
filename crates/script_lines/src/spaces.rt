//! Spaces around the words of a text.
ghost use Rattle.std.specs.Prelude.{◌≡◌, ◌≢◌, ℕ, List, [], ◌∷◌, ◌++◌};
ghost use Rattle.script_lines.specs.inner.Word.{IsBehindSpaces, IsBeforeSpaces, IsCutAtSpace};

/// The text without the spaces that it begins with.
pub(crate) fn without_first_spaces(text: &str) -> &str
    ensures spaces { IsBehindSpaces text.now result.now }
    ensures rest { (t : List ℕ) → result.now ≢ 32 ∷ t }
{
    let mut left = text;
    while let Some(rest) = left.strip_prefix(' ') {
        left = rest;
    }
    left
}

/// The text without the spaces at its end.
pub(crate) fn without_last_spaces(text: &str) -> &str
    ensures spaces { IsBeforeSpaces text.now result.now }
    ensures rest { (t : List ℕ) → result.now ≢ t ++ 32 ∷ [] }
{
    let mut left = text;
    while let Some(rest) = left.strip_suffix(' ') {
        left = rest;
    }
    left
}

/// What stands before the first space of the text, and what is behind it: nothing, if there is no space.
pub(crate) fn cut_at_space(text: &str) -> (&str, &str)
    ensures { IsCutAtSpace text.now result.0.now result.1.now }
{
    text.split_once(' ').unwrap_or((text, ""))
}
