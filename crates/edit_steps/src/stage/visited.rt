//! `VisitedNodes`: the nodes of the old element on the ways to the changes that are done, and what stands in the places of their children.

ghost use Rattle.std.specs.Prelude.{◌≡◌, ◌<◌, ◌≤◌, ◌+◌, ◌^◌, ◌++◌, ◌∷◌, [], ℕ, Some, length, slice_index_or, IfOk, OnOk, OnErr};
ghost use Rattle.green_tree.specs.Path.{Path};
ghost use Rattle.edit_steps.specs.inner.Widths.{width_in, total, nothing_put, held_of, start, index_of, count_of, CanHold, IsPut};
ghost use Rattle.edit_steps.specs.inner.Visited.{held_in, number_at, held_at, SameHeld, IsVisited};
ghost use Rattle.edit_steps.specs.inner.Visited.{below_at, IsEntered, HasRoom, NodeHasRoom, PutsAt};

use crate::stage::among::Among;
use std::alloc::{AllocError, Global};
use std::marker::Model;

/// A node of the old element to which a step came.
///
/// It keeps where it was last asked, so that steps from its first child to the last, or back, look at each child once.
#[derive(Drop)]
pub(crate) struct Visited {
    // How much stands in the place of each of the first children, and of the gap before it. In those of each other one stands one element.
    widths: Vec<usize>,
    // How much was put into the first gaps. The others have nothing.
    gaps: Vec<usize>,
    // A slot, and how much stands before the gap that is before it.
    slot: usize,
    before: usize,
    // By slot, the number of the node there, if a step came there. The last slots may be missing.
    below: Vec<Option<usize>>,
}

impl Model for Visited {
    ghost use Rattle.std.specs.Prelude.{◌≡◌};
    ghost use Rattle.edit_steps.specs.inner.Widths.{VisitedNode, width_in, total};

    ghost Value = { VisitedNode };

    ghost view = { λ x. record { widths = x.widths.items; gaps = x.gaps.items; below = x.below.items } };

    ghost invariant = { λ x. x.before ≡ total (width_in x.widths.items) x.slot };
}

/// Nodes of the old element, each with a number, the top with 0. So a way down finds the numbers of all nodes on it by one look a node.
#[derive(Drop)]
pub(crate) struct VisitedNodes {
    nodes: Vec<Visited>,
}

// Makes a list so long that it has this index; each new item is as those past its end are.
fn lengthen(list: &mut Vec<usize>, last: usize, rest: usize) -> Result<(), AllocError>
    ensures same { (i : ℕ) → slice_index_or list.new.items i rest ≡ slice_index_or list.old.items i rest }
    ensures room { OnOk result (last < length list.new.items) }
{
    list.reserve(last.saturating_add(1).saturating_sub(list.len()))?;
    'longer: while list.len() <= last {
        list.push(rest)?;
    }
    Ok(())
}

// How much stands in the places of the children from one slot up to another.
fn between(widths: &[usize], from: usize, to: usize) -> usize
    requires order { from ≤ to }
    requires fits { total (width_in widths.now) to < 2 ^ 64 }
    ensures { total (width_in widths.now) from + result ≡ total (width_in widths.now) to }
{
    let end = to.min(widths.len());
    let mut sum = 0;
    for slot in from..end {
        sum += widths[slot];
    }
    sum + (to - end.max(from))
}

impl Visited {
    // Nothing is done in it or below.
    fn new(alloc: Global) -> Visited
        ensures held { held_of result ≡ nothing_put }
        ensures below { result.below ≡ [] }
    {
        Visited {
            widths: Vec::new(alloc),
            gaps: Vec::new(alloc),
            slot: 0,
            before: 0,
            below: Vec::new(alloc),
        }
    }

    // The number of the node in this slot, which is the next one if it has none.
    fn enter(&mut self, slot: usize, next: usize) -> Result<usize, AllocError>
        ensures ok { IfOk result (IsEntered self.old self.new slot next) }
        ensures err_held { OnErr result (held_of self.new ≡ held_of self.old) }
        ensures err_below { OnErr result ((i : ℕ) → below_at self.new.below i ≡ below_at self.old.below i) }
    {
        self.below
            .reserve(slot.saturating_add(1).saturating_sub(self.below.len()))?;
        'longer: while self.below.len() <= slot {
            self.below.push(None)?;
        }
        if let Some(number) = self.below[slot] {
            return Ok(number);
        }
        self.below[slot] = Some(next);
        Ok(next)
    }

    // Where in the new child list a gap or slots of the old one begin.
    fn start(&mut self, at: Among) -> usize
        requires { start (held_of self.old) at < 2 ^ 64 }
        ensures start { result ≡ start (held_of self.old) at }
        ensures same { self.new ≡ self.old }
    {
        let slot = at.index();
        if slot < self.slot {
            self.before -= between(&self.widths, slot, self.slot);
        } else {
            self.before += between(&self.widths, self.slot, slot);
        }
        self.slot = slot;
        match at {
            Among::Gap(_) => self.before,
            Among::Slots { first, .. } => self.before + self.gaps.get(first).copied().unwrap_or(0),
        }
    }

    // Makes room for one change more there.
    fn reserve(&mut self, at: Among) -> Result<(), AllocError>
        requires { index_of at + count_of at < 2 ^ 64 }
        ensures held { held_of self.new ≡ held_of self.old }
        ensures below { self.new.below ≡ self.old.below }
        ensures room { OnOk result (HasRoom self.new at) }
    {
        if let Among::Gap(gap) = at {
            lengthen(&mut self.gaps, gap, 0)?;
        }
        lengthen(
            &mut self.widths,
            at.index() + at.count().saturating_sub(1),
            1,
        )
    }

    // So many elements are put there, where there is room.
    fn put(&mut self, at: Among, width: usize)
        requires room { HasRoom self.old at }
        requires can { CanHold (held_of self.old) at width }
        ensures held { IsPut (held_of self.old) (held_of self.new) at width }
        ensures below { self.new.below ≡ self.old.below }
    {
        let first = at.index();
        if first < self.slot {
            self.slot = 0;
            self.before = 0;
        }
        for slot in first..first + at.count() {
            self.widths[slot] -= 1;
        }
        self.widths[first] += width;
        if let Among::Gap(gap) = at {
            self.gaps[gap] += width;
        }
    }
}

impl VisitedNodes {
    /// The top alone.
    pub(crate) fn new(alloc: Global) -> Result<VisitedNodes, AllocError>
        ensures held { IfOk result (λ v. (p : Path) → held_at v p ≡ nothing_put) }
        ensures visited { IfOk result IsVisited }
    {
        let mut nodes = Vec::with_capacity(alloc, 1)?;
        nodes.push(Visited::new(alloc))?;
        Ok(VisitedNodes { nodes })
    }

    // The number of the node in a slot of another one. It gets the next number if it has none.
    pub(crate) fn enter(
        &mut self,
        alloc: Global,
        node: usize,
        slot: usize,
    ) -> Result<usize, AllocError>
        requires visited { IsVisited self.old }
        requires node { node < length self.old.nodes.items }
        ensures leads { IfOk result (λ m. (p : Path) → number_at self.old p ≡ Some node
            → number_at self.new (p ++ slot ∷ []) ≡ Some m) }
        ensures same { SameHeld self.old self.new }
        ensures visited { IsVisited self.new }
    {
        let next = self.nodes.len();
        self.nodes.reserve(1)?;
        let number = self.nodes[node].enter(slot, next)?;
        if number == next {
            self.nodes.push_reserved(Visited::new(alloc));
        }
        Ok(number)
    }

    // Where in the new child list of a node a gap or slots of the old one begin.
    pub(crate) fn start(&mut self, node: usize, at: Among) -> usize
        requires visited { IsVisited self.old }
        requires node { node < length self.old.nodes.items }
        requires fits { start (held_in self.old node) at < 2 ^ 64 }
        ensures start { result ≡ start (held_in self.old node) at }
        ensures same { SameHeld self.old self.new }
        ensures numbers { (p : Path) → number_at self.new p ≡ number_at self.old p }
        ensures visited { IsVisited self.new }
    {
        self.nodes[node].start(at)
    }

    // Makes room for one change more in a node.
    pub(crate) fn reserve(&mut self, node: usize, at: Among) -> Result<(), AllocError>
        requires visited { IsVisited self.old }
        requires node { node < length self.old.nodes.items }
        requires fits { index_of at + count_of at < 2 ^ 64 }
        ensures same { SameHeld self.old self.new }
        ensures numbers { (p : Path) → number_at self.new p ≡ number_at self.old p }
        ensures visited { IsVisited self.new }
        ensures room { OnOk result (NodeHasRoom self.new node at) }
    {
        self.nodes[node].reserve(at)
    }

    // So many elements are put into a node, where there is room.
    pub(crate) fn put(&mut self, node: usize, at: Among, width: usize)
        requires visited { IsVisited self.old }
        requires room { NodeHasRoom self.old node at }
        requires can { CanHold (held_in self.old node) at width }
        ensures put { (p : Path) → number_at self.old p ≡ Some node → PutsAt self.old self.new p at width }
        ensures visited { IsVisited self.new }
    {
        self.nodes[node].put(at, width);
    }
}
