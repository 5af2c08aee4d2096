//! Laws of the kinds.

ghost use Rattle.std.specs.Prelude.{◌≡◌, All, Some, map};
ghost use Rattle.green_tree.specs.Kind.{kind_names, name_of, named_kinds};

use crate::kind::KIND_NAMES;

/// The table of names has the name of each kind at the kind's number.
pub fn names_stand_at_their_numbers()
    ensures { map (λ s. s.now) KIND_NAMES ≡ kind_names }
{}

/// Each constant of `SyntaxKind` has the number at which its own name stands.
pub fn constants_have_their_names()
    ensures { All (λ (kind, name). name_of kind.0 ≡ Some name) named_kinds }
{}
