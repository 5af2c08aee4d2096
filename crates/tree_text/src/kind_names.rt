//! `KindNames`: names for kinds of a caller's own, which reading and writing take.

ghost use Rattle.std.specs.Prelude.{ℕ, ◌≡◌, ◌≢◌, ◌↔◌, ◌++◌, [], ◌∷◌, true, false, Some, None, Err, IsSome, IfSome, IsNone, OnOk, OnErr, MatchOption, option_map, string_bytes, ◌<◌, ◌≤◌, ◌^◌};
ghost use Rattle.tree_text.specs.KindNames.{name_in, next_kind, is_name, is_name_byte, IsTaken, AreNames};

use crate::name_error::NameError;
use cst_core::SyntaxKind;
use std::alloc::{AllocError, Global};
use std::collections::HashMap;
use std::marker::Model;

/// How many kinds `SyntaxKind` names, from 0 on.
pub(crate) const NAMED_KINDS: usize = 65;

// How many numbers of kinds there are.
const NUMBERS: usize = 65_536;

#[derive(Drop)]
struct GivenName {
    kind: SyntaxKind,
    name: String,
}

/// Names of kinds, of one's own beside the 65 that `SyntaxKind` has.
pub struct KindNames {
    given: Vec<GivenName>,
    // The kind of each of these names.
    kinds: HashMap<String, SyntaxKind>,
}

// One call lets a value go, not one for each field.
impl Drop for KindNames {
    fn drop(self) {
        let KindNames { given: _, kinds: _ } = self;
    }
}

impl Model for KindNames {
    ghost use Rattle.std.specs.Prelude.{List, map, string_bytes};
    ghost use Rattle.tree_text.specs.KindNames.{KindName};

    ghost Value = { List KindName };

    ghost view = { λ a. map (λ g. (g.kind.0, string_bytes g.name)) a.given.items };

    ghost use Rattle.tree_text.specs.inner.NamedKinds.{AreKept};

    ghost invariant = { λ a. AreKept a.kinds (map (λ g. (g.kind.0, string_bytes g.name)) a.given.items) };
}

impl KindNames {
    /// Only the names that `SyntaxKind` has. Takes no memory.
    pub fn new(alloc: Global) -> KindNames
        ensures { result ≡ [] }
    {
        KindNames {
            given: Vec::new(alloc),
            kinds: HashMap::new(alloc),
        }
    }

    /// Says what holds of all names, to those who call it: they are spelled as such, and no two kinds have the same.
    pub fn are_names(&self)
        ensures { AreNames (name_in self.now) }
    {
        // For the proof: a read makes the names' invariant known.
        let _given = &self.given;
    }

    /// Gives a name to a kind, which may have any number that has none.
    ///
    /// `Misspelled` comes first, then `Named`, `Taken` and `Memory`. Each of them leaves the names as they were.
    pub fn add(&mut self, alloc: Global, kind: SyntaxKind, name: &str) -> Result<(), NameError>
        ensures ok { OnOk result (self.new ≡ self.old ++ (kind.0, name.now) ∷ []) }
        ensures err { OnErr result (self.new ≡ self.old) }
        ensures unnamed { OnOk result (name_in self.old kind.0 ≡ None) }
        ensures free { OnOk result ((k : ℕ) → name_in self.old k ≢ Some name.now) }
        ensures misspelled { (result ≡ Err NameError.Misspelled) ↔ (is_name name.now ≡ false) }
        ensures named { (result ≡ Err NameError.Named)
            ↔ ((is_name name.now ≡ true) × IsSome (name_in self.old kind.0)) }
        ensures taken { (result ≡ Err NameError.Taken)
            ↔ ((is_name name.now ≡ true) × (name_in self.old kind.0 ≡ None) × IsTaken self.old name.now) }
    {
        if !is_spelled(name) {
            return Err(NameError::Misspelled);
        }
        if self.name(kind).is_some() {
            return Err(NameError::Named);
        }
        if self.kind(name).is_some() {
            return Err(NameError::Taken);
        }
        self.put(alloc, kind, name)?;
        Ok(())
    }

    // Gives a name to a kind that has none. No kind has the name.
    fn put(&mut self, alloc: Global, kind: SyntaxKind, name: &str) -> Result<(), AllocError>
        requires unnamed { name_in self.old kind.0 ≡ None }
        requires spelled { is_name name.now ≡ true }
        requires free { (k : ℕ) → name_in self.old k ≢ Some name.now }
        ensures ok { OnOk result (self.new ≡ self.old ++ (kind.0, name.now) ∷ []) }
        ensures err { OnErr result (self.new ≡ self.old) }
    {
        self.given.reserve(1)?;
        let key = String::from_str(alloc, name)?;
        let name = String::from_str(alloc, name)?;
        self.kinds.insert(key, kind)?;
        self.given.push(GivenName { kind, name }).unwrap();
        Ok(())
    }

    /// The kind after the 65 and after as many more as were given names, if there is such a number.
    pub fn next_kind(&self) -> Option<SyntaxKind>
        ensures { MatchOption result (2 ^ 16 ≤ next_kind self.now)
            (λ kind. (kind.0 ≡ next_kind self.now) × (kind.0 < 2 ^ 16)) }
    {
        let count = self.given.len();
        if count >= NUMBERS - NAMED_KINDS {
            return None;
        }
        Some(SyntaxKind((NAMED_KINDS + count) as u16))
    }

    /// The kind of this name, if it is the name of one.
    pub fn kind(&self, name: &str) -> Option<SyntaxKind>
        ensures found { IfSome result (λ kind. name_in self.now kind.0 ≡ Some name.now) }
        ensures none { IsNone result → (k : ℕ) → name_in self.now k ≢ Some name.now }
    {
        if let Some(kind) = SyntaxKind::from_name(name) {
            return Some(kind);
        }
        self.kinds.get(name).copied()
    }

    /// The name of a kind, if it has one.
    pub fn name(&self, kind: SyntaxKind) -> Option<&str>
        ensures { option_map (λ s. s.now) result ≡ name_in self.now kind.0 }
    {
        if let Some(name) = kind.name() {
            return Some(name);
        }
        if let Some(given) = self.given_at(kind) {
            return Some(given.name.as_str());
        }
        for given in &self.given {
            if kind == given.kind {
                return Some(given.name.as_str());
            }
        }
        None
    }

    // The name of a kind that `next_kind` told, which stands at its number.
    fn given_at(&self, kind: SyntaxKind) -> Option<&GivenName>
        ensures { IfSome result (λ given. name_in self.now kind.0 ≡ Some (string_bytes given.now.name)) }
    {
        let place = usize::from(kind.0).checked_sub(NAMED_KINDS)?;
        let given = self.given.get(place)?;
        if given.kind == kind {
            Some(given)
        } else {
            None
        }
    }
}

fn is_spelled(name: &str) -> bool
    ensures { result ≡ is_name name.now }
{
    for byte in name.as_bytes() {
        if !is_part_of_name(*byte) {
            return false;
        }
    }
    !name.is_empty()
}

pub(crate) fn is_part_of_name(byte: u8) -> bool
    ensures { result ≡ is_name_byte byte }
{
    byte.is_ascii_alphanumeric() || byte == b'_'
}
