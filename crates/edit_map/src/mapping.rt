//! `SyntaxMapping`: which node is the copy of which. Plans ask for `place`, the way up from a target to a payload.

ghost use Rattle.std.specs.Prelude.{◌≡◌, length, [], ◌++◌, IfOk, OnOk, OnErr, reverse, option_map, MatchOption};
ghost use Rattle.cst_core.specs.Element.{address};
ghost use Rattle.edit_map.specs.Mapping.{IsPlace, copy, path_in};
ghost use Rattle.edit_map.specs.Builder.{IsMadeOf, ArePairs, IsMapping};

use crate::builder::SyntaxMappingBuilder;
use crate::pairs::{push_clones, put_all};
use crate::stops::{enter_all, node_above, number_of, push_reversed, stop_above};
use cst_core::SyntaxNode;
use path_table::PathTable;
use std::alloc::{AllocError, Global};
use std::marker::Model;

/// Which node of a younger tree is the copy of which one.
///
/// A copy has a greater tree number than what it is the copy of, and the same shape. Nodes are told apart by tree number and
/// path; the newest pair of a node wins, so no node has two copies.
pub struct SyntaxMapping {
    // No node has two pairs.
    pub(crate) pairs: Vec<(SyntaxNode, SyntaxNode)>,
    // The number of each node's pair: the way to it is the number of the node's tree, and then the slots that lead to the node.
    pub(crate) numbers: PathTable<usize>,
}

// One call lets a value go, not one for each field.
impl Drop for SyntaxMapping {
    fn drop(self) {
        let SyntaxMapping {
            pairs: _,
            numbers: _,
        } = self;
    }
}

impl Model for SyntaxMapping {
    ghost use Rattle.edit_map.specs.Mapping.{Mapping};
    ghost use Rattle.edit_map.specs.inner.Codes.{mapping_code};
    ghost use Rattle.edit_map.specs.inner.Climbing.{IsKept};

    ghost Value = { Mapping };

    ghost coded = { mapping_code };

    ghost view = { λ a. a.pairs.items };

    ghost invariant = { λ a. IsKept a.pairs.items a.numbers };
}

impl SyntaxMapping {
    /// A mapping of nothing.
    pub fn new(alloc: Global) -> SyntaxMapping
        ensures empty { result ≡ [] }
        ensures is_mapping { IsMapping result }
    {
        SyntaxMapping {
            pairs: Vec::new(alloc),
            numbers: PathTable::new(alloc),
        }
    }

    /// How many nodes are mapped.
    pub fn len(&self) -> usize
        ensures count { result ≡ length self.now }
        ensures is_mapping { IsMapping self.now }
    {
        self.pairs.len()
    }

    /// Adds the pairs of a builder. Where both map a node, the builder's pair wins.
    ///
    /// Refused for memory alone. The mapping is unchanged then, and the builder is gone.
    pub fn add_mapping(
        &mut self,
        alloc: Global,
        builder: SyntaxMappingBuilder,
    ) -> Result<(), AllocError>
        ensures ok { OnOk result (IsMadeOf (builder.pairs ++ self.old) self.new) }
        ensures err { OnErr result (self.new ≡ self.old) }
        ensures is_mapping { IsMapping self.new }
    {
        self.take_in(alloc, builder.into_pairs())
    }

    /// Adds the pairs of another mapping. Where both map a node, `other`'s pair wins.
    ///
    /// Refused for memory alone. The mapping is unchanged then, and the other one is gone.
    pub fn merge(&mut self, alloc: Global, other: SyntaxMapping) -> Result<(), AllocError>
        ensures ok { OnOk result (IsMadeOf (other ++ self.old) self.new) }
        ensures err { OnErr result (self.new ≡ self.old) }
        ensures is_mapping { IsMapping self.new }
    {
        // For the proof: what is true of every mapping.
        let _ = &self.pairs;
        self.take_in(alloc, other.into_pairs())
    }

    /// An equal mapping.
    pub fn try_clone(&self, alloc: Global) -> Result<SyntaxMapping, AllocError>
        ensures ok { IfOk result (IsMadeOf self.now) }
        ensures is_mapping { IsMapping self.now }
        ensures clone { IfOk result IsMapping }
    {
        // For the proof: what is true of every mapping.
        let _ = &self.pairs;
        let mut clone = SyntaxMapping::new(alloc);
        clone.take_in(alloc, self.cloned_pairs(alloc)?)?;
        Ok(clone)
    }

    /// The place of `target` in `payload`: the slots that lead from the payload to the copy of the target, through any number of
    /// copies.
    ///
    /// The place of a node in itself is the empty path. Else the way up begins at the target: to the copy of a node where it
    /// has one, and on to the parent of that, until the payload is met. `None` where a root is met instead; so a copy that is
    /// the payload itself has no place.
    pub fn place(
        &self,
        alloc: Global,
        target: &SyntaxNode,
        payload: &SyntaxNode,
    ) -> Result<Option<Vec<usize>>, AllocError>
        ensures place { IfOk result (λ p. IsPlace self.now (address target.now) (address payload.now) (path_in p)) }
        ensures is_mapping { IsMapping self.now }
    {
        // For the proof: what is true of every mapping.
        let _ = &self.pairs;
        let mut slots = Vec::new(alloc);
        let mut node = target.try_clone(alloc)?;
        'up: while node != *payload {
            let copy = self.copy_of(&node).unwrap_or(&node);
            let Some(depth) = stop_above(&self.numbers, copy, payload) else {
                return Ok(None);
            };
            push_reversed(&mut slots, &copy.slots()[depth..])?;
            node = node_above(alloc, copy, depth)?;
        }
        slots.reverse();
        Ok(Some(slots))
    }

    // The copy of a node, if it has one.
    pub(crate) fn copy_of(&self, node: &SyntaxNode) -> Option<&SyntaxNode>
        ensures { option_map (λ c. c.now) result ≡ copy self.now (address node.now) }
    {
        let number = number_of(&self.numbers, node)?;
        Some(&self.pairs[number].1)
    }

    // Takes up pairs, one after another.
    fn take_in(
        &mut self,
        alloc: Global,
        pairs: Vec<(SyntaxNode, SyntaxNode)>,
    ) -> Result<(), AllocError>
        requires { ArePairs pairs.items }
        ensures ok { OnOk result (IsMadeOf (reverse pairs.items ++ self.old) self.new) }
        ensures err { OnErr result (self.new ≡ self.old) }
        ensures is_mapping { IsMapping self.new }
    {
        let cells = enter_all(&mut self.numbers, alloc, &pairs)?;
        self.pairs.reserve(pairs.len())?;
        put_all(&mut self.pairs, &mut self.numbers, &cells, pairs);
        Ok(())
    }

    // The pairs, in some order.
    fn into_pairs(self) -> Vec<(SyntaxNode, SyntaxNode)>
        ensures { IsMadeOf self (reverse result.items) × ArePairs result.items }
    {
        let SyntaxMapping { pairs, numbers: _ } = self;
        pairs
    }

    // Clones of the pairs, in some order.
    fn cloned_pairs(&self, alloc: Global) -> Result<Vec<(SyntaxNode, SyntaxNode)>, AllocError>
        ensures { IfOk result (λ v. IsMadeOf self.now (reverse v.items) × ArePairs v.items) }
    {
        let mut pairs = Vec::with_capacity(alloc, self.pairs.len())?;
        for (input, output) in &self.pairs {
            push_clones(alloc, &mut pairs, input, output)?;
        }
        Ok(pairs)
    }
}
