//! The new tree, in the order in which it comes about.

ghost use Rattle.std.specs.Prelude.{◌≡◌, ◌<◌, ◌∷◌, [], map, length, All, None, IfOk, IfSome, OnOk};
ghost use Rattle.cst_core.specs.Element.{Element, IsNode};
ghost use Rattle.cst_core.specs.GreenElement.{element_tree};
ghost use Rattle.edit_change.specs.Fits.{Fits};
ghost use Rattle.edit_change.specs.Nesting.{first_clash};
ghost use Rattle.edit_change.specs.NewTree.{independents};
ghost use Rattle.edit_change.specs.inner.Aimed.{aims_of};
ghost use Rattle.edit_change.specs.inner.Fate.{fate};
ghost use Rattle.edit_change.specs.inner.DocumentOrder.{IsDocumentOrder};
ghost use Rattle.one_pass.specs.inner.Root.{CountsAllOf, IsOnePassOf, KeepsTop};
ghost use Rattle.one_pass.specs.inner.Pass.{entry_in};
ghost use Rattle.one_pass.specs.inner.Root.{IsAlone, root_rewritten, FindsInRoot, CountsRoot};
ghost use Rattle.one_pass.specs.inner.Sought.{AreInOrder};

use crate::dependent::{ByOwner, by_owner};
use crate::given_table::{given_table, rewritten_element};
use crate::mark::{Walk, mark_paths};
use crate::marked_element::GivenTable;
use crate::sought::{Registered, in_document_order};
use cst_core::{GreenElement, GreenNode, SyntaxElement, SyntaxNode};
use edit_change::{Aimed, Change, Planned, node_for_root};
use std::alloc::{AllocError, Global};

/// What one pass makes of a tree.
///
/// A path counts slots from 0, from the new root down: the empty path is that of the root itself.
#[derive(Drop)]
pub struct OnePass {
    /// The new tree.
    pub green: GreenNode,
    /// For each element that was asked for, the paths of its copies, in document order.
    pub copies: Vec<Vec<Vec<usize>>>,
    /// The paths, in document order, of the elements that changes without an owner brought and whose parent none did.
    pub changed: Vec<Vec<usize>>,
}

/// The new tree, with the paths of the copies of each of these elements, and those of changed elements. `builds` counts the nodes that are
/// built: the parents of changes and all above them, in the old tree and in the payload of each owner. At its greatest number it stays.
///
/// The number of each element is its mark, and the next one is that of what changes without an owner give.
pub fn rewrite(
    alloc: Global,
    planned: Planned<'_>,
    registered: &[SyntaxElement],
    builds: &mut u64,
) -> Result<OnePass, AllocError>
    requires node { IsNode planned.root.now }
    requires fit { All (Fits planned.root.now) planned.changes.now }
    requires apart { first_clash planned.changes.now ≡ None }
    requires order { IsDocumentOrder planned.changes.now planned.order.now }
    requires fates { planned.fates.now ≡ map (fate planned.changes.now) planned.changes.now }
    requires places { length planned.places.now ≡ length planned.changes.now }
    ensures made { IfOk result (IsOnePassOf planned.entry registered.now) }
    ensures count { OnOk result (CountsAllOf planned.entry builds.old builds.new) }
{
    let Planned {
        root,
        changes,
        order,
        fates,
        places,
    } = planned;
    let ByOwner { free, owned } = by_owner(alloc, changes, fates, places)?;
    let sought = in_document_order(alloc, registered)?;
    let mut given = given_table(alloc, changes, order, &owned, &sought, builds)?;
    given.top = Some(registered.len());
    let replacement = root_replacement(root, changes, &free);
    let mut walk = Walk::begin(alloc, *builds);
    let made = rewritten_root(alloc, &mut walk, root, replacement, &free, &sought, &given)?;
    let GreenElement::Node(green) = made else {
        unreachable!()
    };
    *builds = walk.builds;
    let mut paths = mark_paths(alloc, walk.found, registered.len() + 1)?;
    let Some(changed) = paths.pop() else {
        unreachable!()
    };
    Ok(OnePass {
        green,
        copies: paths,
        changed,
    })
}

// What the root becomes: what the change gives that replaces it, or the root with its children made anew. The walk finds the marks of it.
pub(crate) fn rewritten_root(
    alloc: Global,
    walk: &mut Walk,
    root: &SyntaxNode,
    replacement: Option<usize>,
    aims: &[Aimed],
    registered: &[Registered],
    given: &GivenTable,
) -> Result<GreenElement, AllocError>
    requires sought { AreInOrder registered.now }
    requires alone { IsAlone (aims_of aims.now) replacement }
    requires one { IfSome replacement (λ c. length (entry_in given.now c) ≡ 1) }
    ensures count { OnOk result (CountsRoot root.now aims.now walk.old.builds walk.new.builds) }
    ensures tree { IfOk result (λ e. root_rewritten root.now aims.now given.now ≡ element_tree e ∷ []) }
    ensures marks { OnOk result (FindsInRoot root.now aims.now given.now registered.now walk.old walk.new) }
{
    let Some(change) = replacement else {
        let root = SyntaxElement::Node(root.try_clone(alloc)?);
        return rewritten_element(alloc, walk, &root, aims, registered, given);
    };
    // For the proof: the count at the start.
    let _count = walk.builds;
    let one = &given.entries[change][0];
    one.push_marks(alloc, &mut walk.found, &walk.path, given.top)?;
    one.element.share(alloc)
}

// The only change that replaces the root, if one does, where `aims` has the changes without an owner. So one node stands there: the root, or
// the one that the change brings.
pub(crate) fn root_replacement(
    root: &SyntaxNode,
    changes: &[Change],
    aims: &[Aimed],
) -> Option<usize>
    requires node { IsNode root.now }
    requires fit { All (Fits root.now) changes.now }
    requires apart { first_clash changes.now ≡ None }
    requires aims { aims_of aims.now ≡ independents changes.now }
    ensures alone { IsAlone (independents changes.now) result }
    ensures there { IfSome result (λ c. c < length changes.now) }
    ensures node { KeepsTop root.now changes.now }
{
    // For the proof: the contract speaks of the root, and the code needs the aims alone.
    let _ = root;
    for aim in aims {
        if aim.replaces(&[]) {
            // For the proof: it brings one node.
            let _ = node_for_root(&changes[aim.change]);
            return Some(aim.change);
        }
    }
    None
}
