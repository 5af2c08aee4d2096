//! How far a text goes on as it begins.

ghost use Rattle.std.specs.Prelude.{◌≡◌, ◌==◌, ◌||◌, ◌++◌, ◌<◌, [], true, not, take, length, IfSome, IsNone, encode_utf8};
ghost use Rattle.std.specs.List.{list_all};
ghost use Rattle.tree_text.specs.KindNames.{is_name_byte};

use crate::kind_names::is_part_of_name;

/// How many bytes at the start of the text names may have.
pub(crate) fn name_length(text: &str) -> usize
    ensures { list_all is_name_byte (take result text.now) ≡ true }
{
    for (index, byte) in text.as_bytes().iter().enumerate() {
        if !is_part_of_name(*byte) {
            return index;
        }
    }
    text.len()
}

/// How many bytes at the start of the text stand for themselves between quotes.
pub(crate) fn plain_length(text: &str) -> usize
    ensures { list_all (λ b. not (b == 34 || b == 92)) (take result text.now) ≡ true }
{
    for (index, byte) in text.as_bytes().iter().enumerate() {
        if is_special(*byte) {
            return index;
        }
    }
    text.len()
}

fn is_special(byte: u8) -> bool
    ensures { result ≡ (byte == 34 || byte == 92) }
{
    byte == b'"' || byte == b'\\'
}

/// The first character of the text, and what is behind it.
pub(crate) fn first_of(text: &str) -> Option<(char, &str)>
    ensures some { IfSome result (λ r. text.now ≡ encode_utf8 r.0 ++ r.1.now) }
    ensures shorter { IfSome result (λ r. length r.1.now < length text.now) }
    ensures none { IsNone result → text.now ≡ [] }
{
    let mut chars = text.chars();
    let c = chars.next()?;
    Some((c, chars.as_str()))
}
