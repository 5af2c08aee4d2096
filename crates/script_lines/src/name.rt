//! `Name`: the name of a tree, which exists only if it is spelled right.

ghost use Rattle.std.specs.Prelude.{◌≡◌, ◌↔◌, IsSome, IfSome};
ghost use Rattle.script_lines.specs.Name.{IsName};

/// How many characters a name has at most.
const NAME_LIMIT: usize = 32;

/// A name of a script: letters, digits and underscores of ASCII, a letter first.
#[derive(Clone, Copy)]
pub struct Name<'a> {
    text: &'a str,
    // Where it begins in its line, in bytes from 0.
    at: usize,
}

impl<'a> Name<'a> {
    /// The name that is spelled like this, at this byte of its line.
    pub(crate) fn new(text: &'a str, at: usize) -> Option<Name<'a>>
        ensures name { IsSome result ↔ IsName text.now }
        ensures text { IfSome result (λ n. n.text.now ≡ text.now) }
    {
        let starts = text
            .bytes()
            .next()
            .is_some_and(|first| first.is_ascii_alphabetic());
        let goes_on = text
            .bytes()
            .all(|byte| byte.is_ascii_alphanumeric() || byte == b'_');
        if starts && goes_on && text.len() <= NAME_LIMIT {
            Some(Name { text, at })
        } else {
            None
        }
    }

    /// Its text.
    pub fn as_str(&self) -> &'a str
        ensures { result.now ≡ self.now.text.now }
    {
        self.text
    }

    /// Where it begins in its line, in bytes from 0.
    pub fn at(&self) -> usize {
        self.at
    }
}
