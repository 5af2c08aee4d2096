//! `Gaps`: what may be between the elements of an expression.

ghost use Rattle.std.specs.Prelude.{◌≡◌};
ghost use Rattle.tree_text.specs.inner.Gap.{is_gap};

/// What may stand between the elements of an expression.
#[derive(Clone, Copy)]
pub(crate) enum Gaps {
    Spaces,
    /// And tabs, newlines and carriage returns.
    Lines,
}

impl Gaps {
    pub(crate) fn has(self, c: char) -> bool
        ensures { result ≡ is_gap self c }
    {
        match c {
            ' ' => true,
            '\t' | '\n' | '\r' => match self {
                Gaps::Spaces => false,
                Gaps::Lines => true,
            },
            _ => false,
        }
    }
}
