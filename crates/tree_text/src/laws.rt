//! Laws of tree expressions: a text is one tree at most, and what stops the reader is at one byte.

ghost use Rattle.std.specs.Prelude.{◌≡◌, ℕ, Bool, List};
ghost use Rattle.cst_core.specs.Tree.{SyntaxTree};
ghost use Rattle.tree_text.specs.Grammar.{IsExpression, is_gap_blank};
ghost use Rattle.tree_text.specs.KindNames.{KindName, name_in};
ghost use Rattle.tree_text.specs.Refusals.{IsMalformed, IsTooDeep, KeepsNames, LacksName};

use crate::kind_names::KindNames;

/// A text is an expression of one tree at most, with whatever names.
pub fn expression_is_of_one_tree(names: &KindNames)
    ensures { (t u : SyntaxTree) (w : List ℕ) → IsExpression (name_in names.now) is_gap_blank t w
        → IsExpression (name_in names.now) is_gap_blank u w → t ≡ u }
{
    // For the proof: the names are names, and no two kinds have the same.
    names.are_names();
}

/// A text that is malformed lacks no name, is no expression whatever further names kinds have, and is malformed at one
/// byte; so it is with whatever names, and whatever may stand between elements.
pub fn malformed_lacks_no_name(names: &KindNames)
    ensures excludes { (gaps : ℕ → Bool) (w : List ℕ) (i j : ℕ)
        → IsMalformed names.now gaps w i → LacksName names.now gaps w j → ⊥ }
    ensures never { (gaps : ℕ → Bool) (w : List ℕ) (i : ℕ) → IsMalformed names.now gaps w i
        → (more : List KindName) → KeepsNames names.now more → (t : SyntaxTree) → IsExpression (name_in more) gaps t w → ⊥ }
    ensures once { (gaps : ℕ → Bool) (w : List ℕ) (i j : ℕ)
        → IsMalformed names.now gaps w i → IsMalformed names.now gaps w j → i ≡ j }
{
    // For the proof: the names are names, and no two kinds have the same.
    names.are_names();
}

/// A text is too deep at one byte, with whatever names, and whatever may stand between elements.
pub fn too_deep_is_at_one_byte(names: &KindNames)
    ensures { (gaps : ℕ → Bool) (w : List ℕ) (i j : ℕ)
        → IsTooDeep names.now gaps w i → IsTooDeep names.now gaps w j → i ≡ j }
{
    // For the proof: a use of the names, which may be any.
    let _ = names;
}
