//! `Dialect`: a form of scripts, and how much it allows.

ghost use Rattle.std.specs.Prelude.{◌≡◌, ◌<◌, ◌^◌};
ghost use Rattle.script_lines.specs.Dialect.{bytes_in, depth_in, is_wide};

use tree_text::DEPTH_LIMIT;

/// How many bytes a script of the dialect `Syned` has at most.
pub const SCRIPT_LIMIT: usize = 1_048_576;

/// A dialect of scripts.
#[derive(Clone, Copy, Debug, PartialEq, Eq)]
pub enum Dialect {
    /// Scripts of at most `SCRIPT_LIMIT` bytes, of the 65 kinds, nested at most `DEPTH_LIMIT` deep.
    Syned,
    /// Scripts of any size below 2^32 bytes, of kinds that they name themselves, nested as deep as there are bytes, with lines of their own.
    Wide,
}

impl Dialect {
    /// How many bytes a script has at most.
    pub fn script_limit(self) -> usize
        ensures limit { result ≡ bytes_in self }
        ensures within { result < 2 ^ 32 }
    {
        match self {
            Dialect::Syned => SCRIPT_LIMIT,
            Dialect::Wide => 4_294_967_295,
        }
    }

    /// How many parentheses of a tree expression may be open at once. In the wide dialect no script has more.
    pub fn depth_limit(self) -> usize
        ensures limit { result ≡ depth_in self }
        ensures some { 0 < result }
    {
        match self {
            Dialect::Syned => DEPTH_LIMIT,
            Dialect::Wide => self.script_limit(),
        }
    }

    /// Whether a line may have the words of the wide dialect alone: `kinds`, `spaced`, `wrap`, `indent`, `dedent` and `show`.
    pub fn is_wide(self) -> bool
        ensures { result ≡ is_wide self }
    {
        match self {
            Dialect::Syned => false,
            Dialect::Wide => true,
        }
    }
}
