//! `Stages`: the tree, and the payload of each change that others move into, with some changes carried out. `EditRun` steps it.

ghost use Rattle.std.specs.Prelude.{◌≡◌, ◌<◌, ◌∷◌, [], None, true, false, map, length, slice_set, IfOk, OnOk, OnErr, All};
ghost use Rattle.green_tree.specs.Green.{branch_tree};
ghost use Rattle.green_tree.specs.GreenElement.{element_tree, element_trees};
ghost use Rattle.cst_core.specs.Element.{Element, subtree};
ghost use Rattle.edit_change.specs.inner.Aimed.{numbered};
ghost use Rattle.edit_change.specs.Fits.{Fits};
ghost use Rattle.edit_change.specs.Nesting.{first_clash};
ghost use Rattle.edit_change.specs.inner.DocumentOrder.{FitsSome};
ghost use Rattle.edit_change.specs.inner.Fate.{fate};
ghost use Rattle.edit_change.specs.inner.OwnerPlaces.{owner_at};
ghost use Rattle.edit_change.specs.inner.OneNode.{BringsNode, IsNodeTree, IsOneNode};
ghost use Rattle.edit_steps.specs.inner.Splicing.{CanStepIn, StepsIn, StaysIn, CountsStepIn, OthersStay};
ghost use Rattle.edit_steps.specs.inner.Splicing.{CanSplice, Splices, SpliceStays, CountsSplice};
ghost use Rattle.edit_steps.specs.inner.Splicing.{AimsAtTop, PutsRoot};
ghost use Rattle.edit_steps.specs.inner.Stages.{Begins, SomeWay, StaysAs, CanTake, Takes, CountsTaken};
ghost use Rattle.edit_steps.specs.inner.Stages.{builds_of, done_in, HasNumber, TellsReady, TellsComplete};
ghost use Rattle.edit_steps.specs.inner.Stages.{ShowsTree, ShowsPayload};

mod payload;

use crate::order::Waiting;
use crate::stage::Stage;
use crate::stages::payload::{given_elements, payload_stages};
use cst_core::{GreenElement, GreenNode, SyntaxNode};
use edit_change::{Aimed, Change, Fate, node_for_root, only_node};
use std::alloc::{AllocError, Global};

/// The tree of some changes, and the payloads of those that own others, with some of the changes carried out, one at a time.
#[derive(Drop)]
pub struct Stages {
    // The old root with the changes that have no owner.
    tree: Stage,
    // The node that replaced the root, once that is done.
    new_root: Option<GreenNode>,
    // Of each change the payload with the changes that it owns, if it replaces a node by a node and is not dropped.
    payloads: Vec<Option<Stage>>,
    waiting: Waiting,
    builds: u64,
}

// The node that an element is.
fn node(element: &GreenElement) -> &GreenNode
    requires { IsNodeTree (element_tree element.now) }
    ensures { branch_tree result.now ≡ element_tree element.now }
{
    match element {
        GreenElement::Node(node) => node,
        GreenElement::Token(_) => unreachable!(),
    }
}

// Carries out one change more in the payload of its owner.
fn step_in_payload(
    alloc: Global,
    payloads: &mut Vec<Option<Stage>>,
    owner: usize,
    aim: &Aimed,
    given: Vec<GreenElement>,
    builds: &mut u64,
) -> Result<(), AllocError>
    requires there { owner < length payloads.now.items }
    requires can { CanStepIn payloads.now.items owner (numbered aim.now) }
    ensures others { OthersStay payloads.old.items payloads.new.items owner }
    ensures done { OnOk result (StepsIn payloads.old.items payloads.new.items owner
        (numbered aim.now) (element_trees given.items)) }
    ensures count { OnOk result (CountsStepIn payloads.old.items owner (numbered aim.now) builds.old builds.new) }
    ensures refused { OnErr result (StaysIn payloads.old.items payloads.new.items owner) }
    ensures refused_count { OnErr result (builds.new ≡ builds.old) }
{
    match &mut payloads[owner] {
        Some(stage) => stage.step(alloc, aim, given, builds),
        None => unreachable!(),
    }
}

impl Stages {
    /// The tree with this root, and the changes with these fates, of which no two clash. None of them is done yet.
    pub fn new(
        alloc: Global,
        root: &SyntaxNode,
        changes: &[Change],
        fates: &[Fate],
    ) -> Result<Stages, AllocError>
        requires apart { first_clash changes.now ≡ None }
        requires fit { All FitsSome changes.now }
        requires fates { fates.now ≡ map (fate changes.now) changes.now }
        ensures stages { IfOk result (Begins changes.now (subtree root.now)) }
        ensures none_done { IfOk result (λ s. done_in s ≡ map (λ c. false) changes.now) }
        ensures none_built { IfOk result (λ s. builds_of s ≡ 0) }
    {
        let green = GreenElement::Node(root.green(alloc)?);
        Ok(Stages {
            tree: Stage::new(alloc, green)?,
            new_root: None,
            payloads: payload_stages(alloc, changes, fates)?,
            waiting: Waiting::new(alloc, changes, fates)?,
            builds: 0,
        })
    }

    /// Whether a change may be carried out next: it is neither dropped nor done, and all that must come before it is done.
    pub fn ready(&self, number: usize) -> bool
        requires { HasNumber self.now number }
        ensures { TellsReady self.now number result }
    {
        self.waiting.ready(number)
    }

    /// Whether each change that is not dropped is done.
    pub fn is_complete(&self) -> bool
        ensures { TellsComplete self.now result }
    {
        self.waiting.is_complete()
    }

    /// How many nodes were built.
    pub fn builds(&self) -> u64
        ensures { result ≡ builds_of self.now }
    {
        self.builds
    }

    /// The tree as it stands now.
    pub fn green(&self) -> &GreenNode
        requires { SomeWay self.now (λ cs. Unit {0}) }
        ensures { ShowsTree self.now (branch_tree result.now) }
    {
        match &self.new_root {
            Some(node) => node,
            None => node(self.tree.element()),
        }
    }

    /// The payload of a change as it stands now, if changes that it owns can be carried out in it.
    pub fn payload(&self, number: usize) -> Option<&GreenNode>
        requires { HasNumber self.now number }
        ensures { ShowsPayload self.now number result }
    {
        match &self.payloads[number] {
            Some(stage) => Some(node(stage.element())),
            None => None,
        }
    }

    /// Carries out one change more, which has this owner and aims there: in the owner's payload, if there is one, and else in the tree.
    ///
    /// The count of built nodes rises by those on the way to it. After a refusal nothing has changed, the count included.
    pub fn step(
        &mut self,
        alloc: Global,
        changes: &[Change],
        number: usize,
        owner: Option<usize>,
        aim: &Aimed,
    ) -> Result<(), AllocError>
        requires owner { owner ≡ owner_at changes.now number }
        requires can { CanTake changes.now number (numbered aim.now) self.old }
        ensures done { OnOk result (Takes changes.now number (numbered aim.now) self.old self.new) }
        ensures list { OnOk result (done_in self.new ≡ slice_set (done_in self.old) number true) }
        ensures count { OnOk result (CountsTaken changes.now number (numbered aim.now) self.old self.new) }
        ensures refused { OnErr result (StaysAs self.old self.new) }
        ensures refused_list { OnErr result (done_in self.new ≡ done_in self.old) }
        ensures refused_count { OnErr result (builds_of self.new ≡ builds_of self.old) }
    {
        let change = &changes[number];
        let given = given_elements(alloc, change, &self.payloads[number])?;
        self.put(alloc, change, owner, aim, given)?;
        self.waiting.done(number);
        Ok(())
    }

    // Puts what a change gives in the place of the root, if it replaces that, and else where it aims, in the payload of this owner or in the
    // tree.
    fn put(
        &mut self,
        alloc: Global,
        change: &Change,
        owner: Option<usize>,
        aim: &Aimed,
        given: Vec<GreenElement>,
    ) -> Result<(), AllocError>
        requires can { CanSplice self.old owner (numbered aim.now) }
        requires fits { (root : Element) × Fits root change.now }
        requires node { BringsNode change.now → IsOneNode (element_trees given.items) }
        requires top { AimsAtTop change.now owner (numbered aim.now) }
        ensures done { OnOk result (Splices self.old self.new owner (numbered aim.now) (element_trees given.items)) }
        ensures count { OnOk result (CountsSplice self.old self.new owner (numbered aim.now)) }
        ensures root { OnOk result (PutsRoot change.now (element_trees given.items)
            self.old.new_root self.new.new_root) }
        ensures waiting { self.new.waiting ≡ self.old.waiting }
        ensures refused { OnErr result (SpliceStays self.old self.new owner) }
        ensures refused_root { OnErr result (self.new.new_root ≡ self.old.new_root) }
        ensures refused_count { OnErr result (builds_of self.new ≡ builds_of self.old) }
    {
        if change.replaces_root() {
            // Nothing of the old tree changes, so no node is built.
            // For the proof: it brings one node.
            let _ = node_for_root(change);
            // For the proof: the count at the start.
            let _builds = self.builds;
            self.new_root = Some(only_node(given));
            return Ok(());
        }
        match owner {
            Some(owner) => {
                let payloads = &mut self.payloads;
                step_in_payload(alloc, payloads, owner, aim, given, &mut self.builds)
            }
            None => self.tree.step(alloc, aim, given, &mut self.builds),
        }
    }
}
