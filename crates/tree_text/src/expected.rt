//! `Expected`: what may stand where the reader stops.

ghost use Rattle.std.specs.Prelude.{◌<◌, length};

/// What may stand at the byte at which the reader of a tree expression stops.
#[derive(Clone, Copy, Debug, PartialEq, Eq)]
pub enum Expected {
    /// The `(` of the outermost node.
    Node,
    /// The name of a kind, after a `(`.
    KindName,
    /// An element of the innermost open node, or its `)`.
    Element,
    /// The `"` between the kind of a token and its text.
    Text,
    /// The `"` after the text of a token.
    Quote,
    /// What may stand after a backslash of a text: `n`, `r`, `t`, `"` or a backslash.
    Escape,
    /// Nothing, since the outermost node is closed.
    End,
}

impl Expected {
    /// What is wrong, in a sentence.
    pub fn help(self) -> &'static str
        ensures { 0 < length result.now }
    {
        match self {
            Expected::Node => "the `(` of a node is expected",
            Expected::KindName => "the name of a kind is expected",
            Expected::Element => "an element or `)` is expected",
            Expected::Text => "the `\"` before the text of a token is expected",
            Expected::Quote => "the `\"` after the text of a token is expected",
            Expected::Escape => "`n`, `r`, `t`, `\"` or a backslash is expected",
            Expected::End => "the end is expected",
        }
    }
}
