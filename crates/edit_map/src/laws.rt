//! Laws of mappings, of the definitions alone.

ghost use Rattle.std.specs.Prelude.{◌≡◌, ◌∷◌, ◌++◌, ◌↔◌, Some, All, IsSomeAnd};
ghost use Rattle.std.specs.Option.{option_or};
ghost use Rattle.cst_core.specs.Path.{Path};
ghost use Rattle.cst_core.specs.Tree.{SameShape, at};
ghost use Rattle.cst_core.specs.Element.{Address, Element, address, subtree, IsElement, NumbersTell};
ghost use Rattle.edit_map.specs.Mapping.{Mapping, copy, IsRising, StandsFor, mapped_elements, IsFollowed, followed};
ghost use Rattle.edit_map.specs.Builder.{IsMadeOf, ArePairs, AreDistinct};

/// The pairs of a mapping rise.
pub fn pairs_rise()
    ensures { (m : Mapping) → ArePairs m → IsRising m }
{}

/// Where no address has two pairs, each pair counts.
pub fn each_pair_stands()
    ensures { (m : Mapping) → AreDistinct m → All (λ pair. copy m (address pair.0) ≡ Some pair.1) m }
{}

/// Of what two lists of pairs both map, the copy of the newer list wins in what is made of both.
pub fn newer_copies_stand()
    ensures { (newer older m : Mapping) (x : Address)
        → IsMadeOf (newer ++ older) m → copy m x ≡ option_or (copy newer x) (copy older x) }
{}

/// A target has at most one place in a payload.
pub fn place_is_unique()
    ensures { (m : Mapping) (payload target : Address) (p q : Path)
        → IsRising m → StandsFor m payload p target → StandsFor m payload q target → p ≡ q }
{}

/// At the place of a target the payload has the target's shape.
pub fn place_keeps_the_shape()
    ensures { (m : Mapping) (payload target : Element) (p : Path)
        → ArePairs m → IsElement target
        → NumbersTell (payload ∷ target ∷ mapped_elements m)
        → StandsFor m (address payload) p (address target)
        → IsSomeAnd (at (subtree payload) p) (SameShape (subtree target)) }
{}

/// Following an element ends, at one element, from which no step is possible.
pub fn following_ends()
    ensures { (m : Mapping) (e f : Element) → IsRising m → IsFollowed m e f ↔ (f ≡ followed m e) }
{}
