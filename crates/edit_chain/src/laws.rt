//! Laws of chains, of the definitions alone.

ghost use Rattle.std.specs.Prelude.{◌≡◌, List, [], ◌∷◌, ◌++◌};
ghost use Rattle.cst_core.specs.Element.{Element, address};
ghost use Rattle.cst_core.specs.declared.element.SyntaxElement.{SyntaxElement};
ghost use Rattle.edit_plan.specs.FurtherPlans.{AreCopies};
ghost use Rattle.edit_chain.specs.declared.step.Step.{Step};
ghost use Rattle.edit_chain.specs.Chain.{Chain, IsChain, last_root, joined};
ghost use Rattle.edit_chain.specs.Found.{AreFound};

/// Three chains are one, whichever two are joined first. What is joined is a chain, and ends where the second ends.
pub fn chains_associate()
    ensures joined { (a b c : Chain) → joined (joined a b) c ≡ joined a (joined b c) }
    ensures chain { (a b : Chain)
        → IsChain a → IsChain b → address b.first ≡ address (last_root a) → IsChain (joined a b) }
{}

/// A chain of one edit is that edit: it ends at its new root, and what is found are its copies. The same is so of text edits
/// (`Compose`).
pub fn one_edit_is_itself()
    ensures root { (root : Element) (s : Step) → last_root (record { first = root; steps = s ∷ [] }) ≡ s.edit.new_root }
    ensures found { (s : Step) (e : SyntaxElement) (found : List SyntaxElement)
        → AreFound (s ∷ []) (e ∷ []) found → AreCopies s.plan s.edit e found }
{}

/// What is found after joined chains is what the second makes of what is found after the first.
pub fn found_in_turn()
    ensures { (ss ts : List Step) (es between found : List SyntaxElement)
        → AreFound ss es between → AreFound ts between found → AreFound (ss ++ ts) es found }
{}
