//! Where a change aims, and its payload, in the form in which engines take them.

ghost use Rattle.std.specs.Prelude.{◌≡◌, ◌<◌, ◌-◌, ◌↔◌, true, suc, [], ◌∷◌, map, IfOk, IsTrue};
ghost use Rattle.cst_core.specs.Element.{Element, IsNode, subtree};
ghost use Rattle.cst_core.specs.declared.element.SyntaxElement.TheVariants.{Node};
ghost use Rattle.cst_core.specs.GreenElement.{element_trees};
ghost use Rattle.cst_core.specs.SyntaxElement.{element_of};
ghost use Rattle.cst_core.specs.Path.{Path, has_path, last_slot};
ghost use Rattle.edit_change.specs.inner.Aimed.{aim_in, numbered};
ghost use Rattle.edit_change.specs.Aim.{AfterElement};
ghost use Rattle.edit_change.specs.ChangeAim.{aim, aim_path};
ghost use Rattle.edit_change.specs.Change.{payload, targets};
ghost use Rattle.edit_change.specs.Fits.{Fits, is_one_node};
ghost use Rattle.edit_change.specs.inner.AimFrom.{aim_from};

use crate::aimed::{AimForm, Aimed};
use crate::change::Change;
use crate::fits::is_root;
use cst_core::{GreenElement, GreenElementRef, SyntaxElement, SyntaxNode};
use std::alloc::{AllocError, Global};
use std::slice;

impl Change {
    /// Whether it inserts after the element at a path.
    pub fn is_after(&self, path: &[usize]) -> bool
        ensures { IsTrue result ↔ (aim self.now ≡ AfterElement path.now) }
    {
        match self.aim_form() {
            AimForm::FirstIn => false,
            AimForm::AfterElement => aim_path(self) == path,
            AimForm::Over(_) => false,
        }
    }

    /// Whether it replaces the root of its tree.
    pub fn replaces_root(&self) -> bool
        ensures { result ≡ has_path (targets self.now) [] }
    {
        match self {
            Change::Insert(_, _) => false,
            Change::InsertAll(_, _) => false,
            Change::Replace(target, _) => is_root(target),
            Change::ReplaceWithMany(target, _) => is_root(target),
            Change::ReplaceAll(_, _, _) => false,
        }
    }

    // How it aims from the element at its path.
    fn aim_form(&self) -> AimForm
        ensures { (p : Path) → aim_in p result ≡ aim_from p self.now }
    {
        match self {
            Change::Insert(position, _) => position.aim_form(),
            Change::InsertAll(position, _) => position.aim_form(),
            Change::Replace(_, _) => AimForm::Over(1),
            Change::ReplaceWithMany(_, _) => AimForm::Over(1),
            Change::ReplaceAll(first, last, _) => {
                AimForm::Over(slot_after(last).saturating_sub(first.index()))
            }
        }
    }

    /// The elements of the payload, in order.
    pub fn payload(&self) -> &[SyntaxElement]
        ensures { map element_of result.now ≡ payload self.now }
    {
        match self {
            Change::Insert(_, element) => slice::from_ref(element),
            Change::InsertAll(_, elements) => elements.as_slice(),
            Change::Replace(_, None) => &[],
            Change::Replace(_, Some(element)) => slice::from_ref(element),
            Change::ReplaceWithMany(_, elements) => elements.as_slice(),
            Change::ReplaceAll(_, _, elements) => elements.as_slice(),
        }
    }
}

/// The path that says where the change aims: of an insert's anchor, of the first element that a replacement replaces.
pub fn aim_path(change: &Change) -> &[usize]
    ensures { result.now ≡ aim_path change.now }
{
    match change {
        Change::Insert(position, _) => position.anchor(),
        Change::InsertAll(position, _) => position.anchor(),
        Change::Replace(target, _) => target.slots(),
        Change::ReplaceWithMany(target, _) => target.slots(),
        Change::ReplaceAll(first, _, _) => first.slots(),
    }
}

/// Where the change aims, with this number, and with another path in place of its own.
pub fn numbered_aim_from<'a>(change: &Change, number: usize, path: &'a [usize]) -> Aimed<'a>
    ensures { numbered result ≡ (number, aim_from path.now change.now) }
{
    Aimed {
        change: number,
        path,
        form: change.aim_form(),
    }
}

/// Where the change aims, with this number.
pub fn numbered_aim(change: &Change, number: usize) -> Aimed<'_>
    requires { (root : Element) × Fits root change.now }
    ensures { numbered result ≡ (number, aim change.now) }
{
    numbered_aim_from(change, number, aim_path(change))
}

/// The node that takes the place of a root.
pub fn node_for_root(change: &Change) -> &SyntaxNode
    requires fits { (root : Element) × Fits root change.now }
    requires root { has_path (targets change.now) [] ≡ true }
    ensures brought { payload change.now ≡ result.now ∷ [] }
    ensures node { IsNode result.now }
{
    let node = match change {
        Change::Insert(_, _) => unreachable!(),
        Change::InsertAll(_, _) => unreachable!(),
        Change::Replace(_, None) => unreachable!(),
        Change::Replace(_, Some(SyntaxElement::Token(_))) => unreachable!(),
        Change::Replace(_, Some(SyntaxElement::Node(node))) => node,
        Change::ReplaceWithMany(_, elements) => one_node(elements.as_slice()),
        Change::ReplaceAll(_, _, _) => unreachable!(),
    };
    // For the proof: it is a node.
    let _ = node.kind();
    node
}

/// The elements of the payload, each shared.
pub fn green_payload(alloc: Global, change: &Change) -> Result<Vec<GreenElement>, AllocError>
    ensures { IfOk result (λ v. element_trees v.items ≡ map subtree (payload change.now)) }
{
    let elements = change.payload();
    let mut greens = Vec::with_capacity(alloc, elements.len())?;
    for element in elements {
        greens.push(element.green(alloc)?)?;
    }
    Ok(greens)
}

// The only element, a node.
fn one_node(elements: &[SyntaxElement]) -> &SyntaxNode
    requires { is_one_node elements.now ≡ true }
    ensures { elements.now ≡ Node result.now ∷ [] }
{
    match elements {
        [SyntaxElement::Node(node)] => node,
        [SyntaxElement::Token(_)] => unreachable!(),
        _ => unreachable!(),
    }
}

/// The slot after that of an element. There is a number for it, since no node has more children than a list has items.
pub fn slot_after(element: &SyntaxElement) -> usize
    ensures { result ≡ suc (last_slot (element_of element.now).path) }
{
    // For the proof: its path leads to it.
    let _ = element.as_green();
    let Some((slot, parent)) = element.slots().split_last() else {
        return 1;
    };
    match element.top_green().get(parent) {
        Some(GreenElementRef::Node(node)) => {
            let slot = *slot;
            prove!(slot < node.children().len());
            slot + 1
        }
        Some(GreenElementRef::Token(_)) => unreachable!(),
        None => unreachable!(),
    }
}
