//! `SyntaxKind`: the kinds by their numbers, with their names.

ghost use Rattle.std.specs.Prelude.{ℕ, ◌≡◌, ◌↔◌, option_map, map, length, nat_eq, position};
ghost use Rattle.std.specs.Cmp.Lexicographic.{pointwise};
ghost use Rattle.green_tree.specs.Kind.{kind_names, name_of};

use std::fmt;

/// The name of each kind, at its number.
pub const KIND_NAMES: [&str; 65] = [
    "WHITESPACE",
    "COMMENT",
    "DOC_COMMENT",
    "SEMICOLON",
    "COMMA",
    "L_PAREN",
    "R_PAREN",
    "L_CURLY",
    "R_CURLY",
    "L_BRACK",
    "R_BRACK",
    "L_ANGLE",
    "R_ANGLE",
    "AMP",
    "POUND",
    "UNDERSCORE",
    "EQ",
    "FAT_ARROW",
    "THIN_ARROW",
    "PLUS",
    "IDENT",
    "INT_NUMBER",
    "LIFETIME_IDENT",
    "TRUE_KW",
    "LET_KW",
    "FN_KW",
    "USE_KW",
    "SOURCE_FILE",
    "ARG_LIST",
    "LITERAL",
    "TUPLE_EXPR",
    "BIN_EXPR",
    "BLOCK_EXPR",
    "STMT_LIST",
    "ITEM_LIST",
    "LET_STMT",
    "EXPR_STMT",
    "IDENT_PAT",
    "WILDCARD_PAT",
    "NAME",
    "NAME_REF",
    "MATCH_ARM",
    "MATCH_ARM_LIST",
    "PARAM_LIST",
    "RET_TYPE",
    "TUPLE_TYPE",
    "ATTR",
    "LIFETIME",
    "GENERIC_ARG_LIST",
    "USE",
    "CONST",
    "ENUM",
    "EXTERN_BLOCK",
    "EXTERN_CRATE",
    "FN",
    "IMPL",
    "MACRO_CALL",
    "MACRO_DEF",
    "MACRO_RULES",
    "MODULE",
    "STATIC",
    "STRUCT",
    "TRAIT",
    "TYPE_ALIAS",
    "UNION",
];

/// The kind of a token or a node, as a number. A number past the named ones is a kind without a name.
#[derive(Clone, Copy, PartialEq, Eq, PartialOrd, Ord, Hash)]
pub struct SyntaxKind(pub u16);

// The table as a slice.
fn kind_names() -> &'static [&'static str]
    ensures { map (λ s. s.now) result.now ≡ kind_names }
{
    &KIND_NAMES
}

// The index of a name in a list of names.
fn index_of(names: &[&str], name: &str) -> Option<usize>
    ensures { result ≡ position (λ own. pointwise nat_eq own.now name.now) names.now }
{
    names.iter().position(|own| *own == name)
}

impl SyntaxKind {
    pub const WHITESPACE: SyntaxKind = SyntaxKind(0);

    pub const COMMENT: SyntaxKind = SyntaxKind(1);

    pub const DOC_COMMENT: SyntaxKind = SyntaxKind(2);

    pub const SEMICOLON: SyntaxKind = SyntaxKind(3);

    pub const COMMA: SyntaxKind = SyntaxKind(4);

    pub const L_PAREN: SyntaxKind = SyntaxKind(5);

    pub const R_PAREN: SyntaxKind = SyntaxKind(6);

    pub const L_CURLY: SyntaxKind = SyntaxKind(7);

    pub const R_CURLY: SyntaxKind = SyntaxKind(8);

    pub const L_BRACK: SyntaxKind = SyntaxKind(9);

    pub const R_BRACK: SyntaxKind = SyntaxKind(10);

    pub const L_ANGLE: SyntaxKind = SyntaxKind(11);

    pub const R_ANGLE: SyntaxKind = SyntaxKind(12);

    pub const AMP: SyntaxKind = SyntaxKind(13);

    pub const POUND: SyntaxKind = SyntaxKind(14);

    pub const UNDERSCORE: SyntaxKind = SyntaxKind(15);

    pub const EQ: SyntaxKind = SyntaxKind(16);

    pub const FAT_ARROW: SyntaxKind = SyntaxKind(17);

    pub const THIN_ARROW: SyntaxKind = SyntaxKind(18);

    pub const PLUS: SyntaxKind = SyntaxKind(19);

    pub const IDENT: SyntaxKind = SyntaxKind(20);

    pub const INT_NUMBER: SyntaxKind = SyntaxKind(21);

    pub const LIFETIME_IDENT: SyntaxKind = SyntaxKind(22);

    pub const TRUE_KW: SyntaxKind = SyntaxKind(23);

    pub const LET_KW: SyntaxKind = SyntaxKind(24);

    pub const FN_KW: SyntaxKind = SyntaxKind(25);

    pub const USE_KW: SyntaxKind = SyntaxKind(26);

    pub const SOURCE_FILE: SyntaxKind = SyntaxKind(27);

    pub const ARG_LIST: SyntaxKind = SyntaxKind(28);

    pub const LITERAL: SyntaxKind = SyntaxKind(29);

    pub const TUPLE_EXPR: SyntaxKind = SyntaxKind(30);

    pub const BIN_EXPR: SyntaxKind = SyntaxKind(31);

    pub const BLOCK_EXPR: SyntaxKind = SyntaxKind(32);

    pub const STMT_LIST: SyntaxKind = SyntaxKind(33);

    pub const ITEM_LIST: SyntaxKind = SyntaxKind(34);

    pub const LET_STMT: SyntaxKind = SyntaxKind(35);

    pub const EXPR_STMT: SyntaxKind = SyntaxKind(36);

    pub const IDENT_PAT: SyntaxKind = SyntaxKind(37);

    pub const WILDCARD_PAT: SyntaxKind = SyntaxKind(38);

    pub const NAME: SyntaxKind = SyntaxKind(39);

    pub const NAME_REF: SyntaxKind = SyntaxKind(40);

    pub const MATCH_ARM: SyntaxKind = SyntaxKind(41);

    pub const MATCH_ARM_LIST: SyntaxKind = SyntaxKind(42);

    pub const PARAM_LIST: SyntaxKind = SyntaxKind(43);

    pub const RET_TYPE: SyntaxKind = SyntaxKind(44);

    pub const TUPLE_TYPE: SyntaxKind = SyntaxKind(45);

    pub const ATTR: SyntaxKind = SyntaxKind(46);

    pub const LIFETIME: SyntaxKind = SyntaxKind(47);

    pub const GENERIC_ARG_LIST: SyntaxKind = SyntaxKind(48);

    pub const USE: SyntaxKind = SyntaxKind(49);

    pub const CONST: SyntaxKind = SyntaxKind(50);

    pub const ENUM: SyntaxKind = SyntaxKind(51);

    pub const EXTERN_BLOCK: SyntaxKind = SyntaxKind(52);

    pub const EXTERN_CRATE: SyntaxKind = SyntaxKind(53);

    pub const FN: SyntaxKind = SyntaxKind(54);

    pub const IMPL: SyntaxKind = SyntaxKind(55);

    pub const MACRO_CALL: SyntaxKind = SyntaxKind(56);

    pub const MACRO_DEF: SyntaxKind = SyntaxKind(57);

    pub const MACRO_RULES: SyntaxKind = SyntaxKind(58);

    pub const MODULE: SyntaxKind = SyntaxKind(59);

    pub const STATIC: SyntaxKind = SyntaxKind(60);

    pub const STRUCT: SyntaxKind = SyntaxKind(61);

    pub const TRAIT: SyntaxKind = SyntaxKind(62);

    pub const TYPE_ALIAS: SyntaxKind = SyntaxKind(63);

    pub const UNION: SyntaxKind = SyntaxKind(64);

    /// The kind's name, `None` for a number that has none.
    pub fn name(self) -> Option<&'static str>
        ensures { option_map (λ s. s.now) result ≡ name_of self.0 }
    {
        kind_names().get(usize::from(self.0)).copied()
    }

    /// The kind of this name, if it is the name of one.
    pub fn from_name(name: &str) -> Option<SyntaxKind>
        ensures { (k : ℕ) → (result ≡ Some (record { 0 = k })) ↔ (name_of k ≡ Some name.now) }
    {
        let number = index_of(kind_names(), name)?;
        Some(SyntaxKind(number as u16))
    }
}

/// Prints the kind's name, and a kind without one as `SyntaxKind(NUMBER)`.
impl fmt::Debug for SyntaxKind {
    ghost use Rattle.std.specs.Prelude.{Some};
    ghost use Rattle.green_tree.specs.Kind.{kind_text};

    ghost debug_output = { λ k. Some (kind_text k.0) };

    fn fmt<W: fmt::Write>(&self, f: &mut fmt::Formatter<W>) -> fmt::Result {
        match self.name() {
            Some(name) => f.write_str(name),
            None => {
                let number = self.0;
                write!(f, "SyntaxKind({number})")
            }
        }
    }
}
