//! The kinds whose names were read last.

ghost use Rattle.std.specs.Prelude.{ℕ, ◌≡◌, ◌≢◌, ◌<◌, IfSome, IsNone, IsTrue, Some};
ghost use Rattle.tree_text.specs.KindNames.{name_in};
ghost use Rattle.tree_text.specs.declared.last_kinds.TheConstants.{PLACES};

use crate::kind_names::KindNames;
use cst_core::SyntaxKind;

// For how many names a kind is kept.
const PLACES: usize = 64;

/// The kinds whose names were read last, so that a name that comes again is compared with one name, not with all.
#[derive(Drop)]
pub(crate) struct LastKinds {
    // Each where its name has its place.
    kinds: [SyntaxKind; PLACES],
}

impl LastKinds {
    pub(crate) fn new() -> LastKinds {
        LastKinds {
            kinds: [SyntaxKind(0); PLACES],
        }
    }

    /// The kind of this name, if it is the name of one.
    pub(crate) fn kind(&mut self, names: &KindNames, name: &str) -> Option<SyntaxKind>
        ensures found { IfSome result (λ kind. name_in names.now kind.0 ≡ Some name.now) }
        ensures none { IsNone result → (k : ℕ) → name_in names.now k ≢ Some name.now }
    {
        let place = place_of(name);
        let last = self.kinds[place];
        if is_name_of(names, last, name) {
            return Some(last);
        }
        let kind = names.kind(name)?;
        self.kinds[place] = kind;
        Some(kind)
    }
}

fn is_name_of(names: &KindNames, kind: SyntaxKind, name: &str) -> bool
    ensures { IsTrue result → name_in names.now kind.0 ≡ Some name.now }
{
    match names.name(kind) {
        Some(own) => own == name,
        None => false,
    }
}

// Where the kind of this name is kept. Names that share a place cost time, no more.
fn place_of(name: &str) -> usize
    ensures { result < PLACES }
{
    let bytes = name.as_bytes();
    let first = bytes.first().map_or(0, |byte| usize::from(*byte));
    let last = bytes.last().map_or(0, |byte| usize::from(*byte));
    (bytes.len() % PLACES * 11 + first * 16 + last) % PLACES
}
