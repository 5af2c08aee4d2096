//! What each change gives, with what it owns carried out in its payload, and where registered elements stand in it.

ghost use Rattle.std.specs.Prelude.{None, ◌≡◌, All, map, length, IfOk, OnOk};
ghost use Rattle.cst_core.specs.Element.{Element};
ghost use Rattle.cst_core.specs.SyntaxElement.{element_of};
ghost use Rattle.cst_core.specs.GreenElement.{element_tree};
ghost use Rattle.edit_change.specs.Change.{payload};
ghost use Rattle.edit_change.specs.Fits.{Fits};
ghost use Rattle.edit_change.specs.inner.Aimed.{aims_of};
ghost use Rattle.edit_change.specs.inner.DocumentOrder.{IsDocumentOrder};
ghost use Rattle.one_pass.specs.inner.Pass.{given_trees};
ghost use Rattle.one_pass.specs.inner.GivenTables.{element_rewritten, each_rewritten, FindsElement, AreMarkedEach};
ghost use Rattle.one_pass.specs.inner.GivenTables.{TellsGiven, TellsMarks};
ghost use Rattle.one_pass.specs.inner.GivenTables.{CountsElement, CountsEach, CountsPayloads};
ghost use Rattle.one_pass.specs.inner.Sought.{AreInOrder};
ghost use Rattle.one_pass.specs.inner.OwnerTables.{moved_dependent};

use crate::dependent::Dependent;
use crate::mark::{Walk, empty_lists};
use crate::marked_element::{GivenTable, MarkedElement};
use crate::open_nodes::rewrite_element;
use crate::sought::{Registered, sought_at};
use cst_core::{GreenElement, SyntaxElement};
use edit_change::{Aimed, Change, numbered_aim_from};
use std::alloc::{AllocError, Global};

/// An element, rewritten, where the walk is at it.
pub(crate) fn rewritten_element(
    alloc: Global,
    walk: &mut Walk,
    element: &SyntaxElement,
    aims: &[Aimed],
    registered: &[Registered],
    given: &GivenTable,
) -> Result<GreenElement, AllocError>
    requires { AreInOrder registered.now }
    ensures count { OnOk result (CountsElement aims.now element.now walk.old.builds walk.new.builds) }
    ensures tree { IfOk result (λ e. element_tree e ≡ element_rewritten given.now aims.now element.now) }
    ensures marks { OnOk result (FindsElement given.now aims.now registered.now element.now walk.old walk.new) }
{
    let old = element.green(alloc)?;
    let sought = sought_at(alloc, registered, element)?;
    rewrite_element(alloc, walk, &old, aims, &sought, given)
}

// What a change gives, where what it owns has been entered: each element of its payload, rewritten, with its marks.
fn given_by(
    alloc: Global,
    change: &Change,
    dependents: &[Dependent],
    registered: &[Registered],
    given: &GivenTable,
    builds: &mut u64,
) -> Result<Vec<MarkedElement>, AllocError>
    requires { AreInOrder registered.now }
    ensures count { OnOk result
        (CountsEach (map moved_dependent dependents.now) (payload change.now) builds.old builds.new) }
    ensures trees { IfOk result
        (λ v. given_trees v.items
        ≡ each_rewritten given.now (map moved_dependent dependents.now) (payload change.now)) }
    ensures marks { IfOk result
        (λ v. AreMarkedEach given.now registered.now
        (map moved_dependent dependents.now) (payload change.now) v.items) }
{
    // For the proof: the count at the start.
    let _count = *builds;
    let mut aims = Vec::with_capacity(alloc, dependents.len())?;
    for it in dependents {
        aims.push(numbered_aim_from(it.change, it.number, &it.path))?;
    }
    let elements = change.payload();
    let mut entry = Vec::with_capacity(alloc, elements.len())?;
    for element in elements {
        let mut walk = Walk::begin(alloc, *builds);
        let green = rewritten_element(alloc, &mut walk, element, &aims, registered, given)?;
        *builds = walk.builds;
        entry.push(MarkedElement {
            element: green,
            marks: walk.found,
        })?;
    }
    Ok(entry)
}

/// What each change gives, by its number, with the marks of registered elements, where a table has what each change owns.
/// `builds` counts the nodes that are built in the owners' payloads.
///
/// The changes are entered from the last one in document order to the first, so an owner comes after what it owns. Takes
/// time linear in the changes, but for what the passes through the payloads take.
pub(crate) fn given_table(
    alloc: Global,
    changes: &[Change],
    order: &[usize],
    dependents: &[Vec<Dependent>],
    registered: &[Registered],
    builds: &mut u64,
) -> Result<GivenTable, AllocError>
    requires fit { (root : Element) × All (Fits root) changes.now }
    requires order { IsDocumentOrder changes.now order.now }
    requires sought { AreInOrder registered.now }
    requires long { length dependents.now ≡ length changes.now }
    ensures count { OnOk result (CountsPayloads changes.now dependents.now builds.old builds.new) }
    ensures top { IfOk result (λ t. t.top ≡ None) }
    ensures given { IfOk result (TellsGiven changes.now dependents.now) }
    ensures marks { IfOk result (TellsMarks changes.now dependents.now registered.now) }
{
    let mut given = GivenTable {
        entries: empty_lists(alloc, changes.len())?,
        top: None,
    };
    // For the proof: the count at the start.
    let _count = *builds;
    for place in (0..order.len()).rev() {
        let number = order[place];
        let owned = dependents[number].as_slice();
        let entry = given_by(alloc, &changes[number], owned, registered, &given, builds)?;
        given.entries[number] = entry;
    }
    Ok(given)
}
