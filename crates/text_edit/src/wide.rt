//! Columns in units of UTF-16 and UTF-32.

ghost use Rattle.std.specs.Prelude.{◌≡◌, ◌≢◌, ℕ, take, MatchOption, IsCharBoundary};
ghost use Rattle.text_edit.specs.Wide.{units, wide_len};

use crate::characters::first_and_rest;

/// What a column is counted in, where not in bytes.
#[derive(Clone, Copy, Debug, PartialEq, Eq)]
pub enum WideEncoding {
    /// Two units for a character from U+10000 on, one for any other.
    Utf16,
    /// One unit for each character.
    Utf32,
}

/// A place in a text: a line and a column in units of an encoding, both from 0.
#[derive(Clone, Copy, Debug, PartialEq, Eq)]
pub struct WideLineCol {
    /// The line, from 0.
    pub line: u64,
    /// The units between the start of the line and the place.
    pub col: u64,
}

impl WideEncoding {
    // How many units a character has.
    fn units(self, character: char) -> u64
        ensures { result ≡ units self character }
    {
        match self {
            WideEncoding::Utf16 => character.len_utf16() as u64,
            WideEncoding::Utf32 => 1,
        }
    }

    /// How many units a text has. Takes time linear in the text.
    pub fn measure(self, text: &str) -> u64
        ensures { result ≡ wide_len self text.now }
    {
        let mut measured = 0;
        let mut left = text;
        'characters: while let Some((first, rest)) = first_and_rest(left) {
            measured += self.units(first);
            left = rest;
        }
        measured
    }

    /// How many bytes the beginning of a text has that has so many units; none where no beginning has. Takes time
    /// linear in the units.
    pub(crate) fn bytes_of(self, text: &str, wide: u64) -> Option<u64>
        ensures { MatchOption result ((n : ℕ) → IsCharBoundary text.now n → wide_len self (take n text.now) ≢ wide)
            (λ n. IsCharBoundary text.now n × (wide_len self (take n text.now) ≡ wide)) }
    {
        let mut measured = 0;
        let mut left = text;
        'characters: while measured < wide {
            let Some((first, rest)) = first_and_rest(left) else {
                return None;
            };
            measured += self.units(first);
            left = rest;
        }
        if measured == wide {
            Some((text.len() - left.len()) as u64)
        } else {
            None
        }
    }
}
