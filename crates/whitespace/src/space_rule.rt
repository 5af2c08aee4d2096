//! The table of the whitespace between two elements.
ghost use Rattle.std.specs.Prelude.{ℕ, ◌≡◌};
ghost use Rattle.whitespace.specs.Spacing.{between, opens_list, is_statement};
ghost use Rattle.whitespace.specs.inner.SpaceRule.{neighbor_of, space_by};

use cst_core::SyntaxKind;

/// What the table says of two kinds: the whitespace between them, and whose level a new line has.
#[derive(Clone, Copy)]
pub(crate) enum SpaceRule {
    /// No whitespace.
    Nothing,
    /// One space.
    OneSpace,
    /// A new line at the level of the left element.
    LineOfLeft,
    /// A new line at the level of the right element.
    LineOfRight,
    /// A new line at the greater level of both.
    LineOfDeeper,
}

/// The first line of the table that fits.
pub(crate) fn space_rule(left: SyntaxKind, right: SyntaxKind) -> SpaceRule
    ensures { (l r : ℕ) → space_by result l r ≡ between (neighbor_of left l) (neighbor_of right r) }
{
    match (left, right) {
        (SyntaxKind::WHITESPACE, _) | (_, SyntaxKind::WHITESPACE) => SpaceRule::Nothing,
        (_, SyntaxKind::SEMICOLON | SyntaxKind::COMMA) => SpaceRule::Nothing,
        (SyntaxKind::L_ANGLE, _) | (_, SyntaxKind::R_ANGLE) => SpaceRule::Nothing,
        (SyntaxKind::AMP, SyntaxKind::LIFETIME) => SpaceRule::Nothing,
        (_, SyntaxKind::GENERIC_ARG_LIST) => SpaceRule::Nothing,
        (SyntaxKind::USE, SyntaxKind::USE) => SpaceRule::LineOfDeeper,
        (_, SyntaxKind::USE) => SpaceRule::LineOfLeft,
        (SyntaxKind::ATTR, SyntaxKind::ATTR) => SpaceRule::LineOfDeeper,
        (SyntaxKind::ATTR, _) => SpaceRule::LineOfRight,
        _ => SpaceRule::OneSpace,
    }
}

/// Whether what is after an opening brace is on a line of its own: an import or a statement that comes first in the braces
/// of its list.
pub(crate) fn opens_list(parent: SyntaxKind, anchor: SyntaxKind, first: SyntaxKind) -> bool
    ensures { (p a f : ℕ) → result ≡ opens_list (neighbor_of parent p) (neighbor_of anchor a) (neighbor_of first f) }
{
    anchor == SyntaxKind::L_CURLY
        && (parent == SyntaxKind::ITEM_LIST && first == SyntaxKind::USE
            || parent == SyntaxKind::STMT_LIST && is_statement(first))
}

fn is_statement(kind: SyntaxKind) -> bool
    ensures { (level : ℕ) → result ≡ is_statement (neighbor_of kind level) }
{
    matches!(
        kind,
        SyntaxKind::LET_STMT
            | SyntaxKind::EXPR_STMT
            | SyntaxKind::CONST
            | SyntaxKind::ENUM
            | SyntaxKind::EXTERN_BLOCK
            | SyntaxKind::EXTERN_CRATE
            | SyntaxKind::FN
            | SyntaxKind::IMPL
            | SyntaxKind::MACRO_CALL
            | SyntaxKind::MACRO_DEF
            | SyntaxKind::MACRO_RULES
            | SyntaxKind::MODULE
            | SyntaxKind::STATIC
            | SyntaxKind::STRUCT
            | SyntaxKind::TRAIT
            | SyntaxKind::TYPE_ALIAS
            | SyntaxKind::UNION
            | SyntaxKind::USE
    )
}
