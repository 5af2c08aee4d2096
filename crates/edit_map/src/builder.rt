//! `SyntaxMappingBuilder`: pairs whose copies are children of one parent, each tested as it comes.

ghost use Rattle.std.specs.Prelude.{◌≡◌, ◌↔◌, ◌≤◌, length, [], ◌∷◌, ◌++◌, IsTrue, IfErr, IfOk, OnOk, OnErr, All, reverse};
ghost use Rattle.std.specs.List.{zip};
ghost use Rattle.cst_core.specs.Element.{IsChild};
ghost use Rattle.edit_map.specs.Builder.{IsMadeOf, ArePairs, IsMapping, IsPairUnder, ArePairsUnder, RefusesPair, RefusesChildren, with_pairs};

use crate::map_error::MapError;
use crate::mapping::SyntaxMapping;
use crate::pairs::push_clones;
use cst_core::{SyntaxNode, same_shape};
use std::alloc::{AllocError, Global};
use std::marker::Model;

/// Pairs of a node and its copy, where each copy is a child of one parent.
#[derive(Drop)]
pub struct SyntaxMappingBuilder {
    parent: SyntaxNode,
    pairs: Vec<(SyntaxNode, SyntaxNode)>,
}

impl Model for SyntaxMappingBuilder {
    ghost use Rattle.std.specs.Prelude.{reverse, All};
    ghost use Rattle.edit_map.specs.Builder.{Builder, IsPairUnder};
    ghost use Rattle.edit_map.specs.inner.Codes.{builder_code};

    ghost Value = { Builder };

    ghost coded = { builder_code };

    ghost view = { λ a. record { parent = a.parent; pairs = reverse a.pairs.items } };

    ghost invariant = { λ a. All (IsPairUnder a.parent) a.pairs.items };
}

// Whether a node is a child of another one.
fn is_child(parent: &SyntaxNode, node: &SyntaxNode) -> bool
    ensures { IsTrue result ↔ IsChild parent.now node.now }
{
    let Some((_, front)) = node.slots().split_last() else {
        return false;
    };
    node.tree() == parent.tree() && front == parent.slots()
}

// Whether a builder with this parent takes a pair.
fn test_pair(parent: &SyntaxNode, input: &SyntaxNode, output: &SyntaxNode) -> Result<(), MapError>
    ensures ok { OnOk result (IsPairUnder parent.now (input.now, output.now)) }
    ensures err { IfErr result (RefusesPair parent.now (input.now, output.now)) }
{
    // For the proof: both are nodes.
    let _ = (input.kind(), output.kind());
    if !is_child(parent, output) {
        return Err(MapError::NotAChild);
    }
    if output.tree() <= input.tree() {
        return Err(MapError::NotYounger);
    }
    if !same_shape(input, output) {
        return Err(MapError::OtherShape);
    }
    Ok(())
}

// The inputs, each with the output at its place, where a builder with this parent takes all these pairs.
fn pairs_under(
    alloc: Global,
    parent: &SyntaxNode,
    inputs: &[SyntaxNode],
    outputs: &[SyntaxNode],
) -> Result<Vec<(SyntaxNode, SyntaxNode)>, MapError>
    requires { length inputs.now ≤ length outputs.now }
    ensures ok { IfOk result (λ v. v.items ≡ zip inputs.now outputs.now) }
    ensures taken { IfOk result (λ v. All (IsPairUnder parent.now) v.items) }
    ensures refused { IfErr result (RefusesChildren parent.now inputs.now outputs.now) }
{
    let mut pairs = Vec::with_capacity(alloc, inputs.len())?;
    for (input, output) in inputs.iter().zip(outputs) {
        test_pair(parent, input, output)?;
        push_clones(alloc, &mut pairs, input, output)?;
    }
    Ok(pairs)
}

impl SyntaxMappingBuilder {
    /// A builder without pairs. Each output that it takes has to be a child of `parent`.
    pub fn new(alloc: Global, parent: SyntaxNode) -> SyntaxMappingBuilder
        ensures empty { result ≡ record { parent = parent; pairs = [] } }
        ensures pairs { ArePairsUnder result }
    {
        SyntaxMappingBuilder {
            parent,
            pairs: Vec::new(alloc),
        }
    }

    /// Says that `output` is the copy of `input`.
    ///
    /// `NotAChild` comes first, then `NotYounger`, then `OtherShape`, then `Memory`. The builder is unchanged after each.
    pub fn map_node(
        &mut self,
        _alloc: Global,
        input: SyntaxNode,
        output: SyntaxNode,
    ) -> Result<(), MapError>
        ensures ok { OnOk result (self.new ≡ record self.old { pairs = (input, output) ∷ self.old.pairs }) }
        ensures taken { OnOk result (IsPairUnder self.old.parent (input, output)) }
        ensures refused { IfErr result (RefusesPair self.old.parent (input, output)) }
        ensures unchanged { OnErr result (self.new ≡ self.old) }
        ensures pairs { ArePairsUnder self.new }
    {
        test_pair(&self.parent, &input, &output)?;
        self.pairs.push((input, output))?;
        Ok(())
    }

    /// Says of each input, in order, that the output at the same place is its copy. Outputs that are left over count for
    /// nothing.
    ///
    /// `MoreInputs` comes first, where there are more inputs than outputs; then, pair by pair, the refusals of `map_node`,
    /// of which `Memory` may come before another one that a later pair would have. The builder is unchanged after each.
    pub fn map_children(
        &mut self,
        alloc: Global,
        inputs: &[SyntaxNode],
        outputs: &[SyntaxNode],
    ) -> Result<(), MapError>
        ensures enough { OnOk result (length inputs.now ≤ length outputs.now) }
        ensures ok { OnOk result (self.new ≡ with_pairs self.old (zip inputs.now outputs.now)) }
        ensures taken { OnOk result (All (IsPairUnder self.old.parent) (zip inputs.now outputs.now)) }
        ensures refused { IfErr result (RefusesChildren self.old.parent inputs.now outputs.now) }
        ensures unchanged { OnErr result (self.new ≡ self.old) }
        ensures pairs { ArePairsUnder self.new }
    {
        // For the proof: the pairs so far are such as the builder takes.
        let _ = &self.pairs;
        if inputs.len() > outputs.len() {
            return Err(MapError::MoreInputs);
        }
        let mut pairs = pairs_under(alloc, &self.parent, inputs, outputs)?;
        self.pairs.append(&mut pairs)?;
        Ok(())
    }

    /// Adds the pairs to a mapping, where they win over older ones.
    ///
    /// Refused for memory alone. The mapping is unchanged then, and the builder is gone.
    pub fn finish(self, alloc: Global, mapping: &mut SyntaxMapping) -> Result<(), AllocError>
        ensures ok { OnOk result (IsMadeOf (self.pairs ++ mapping.old) mapping.new) }
        ensures err { OnErr result (mapping.new ≡ mapping.old) }
        ensures pairs { ArePairsUnder self }
        ensures is_mapping { IsMapping mapping.new }
    {
        // For the proof: the pairs are such as the builder takes.
        let _ = &self.pairs;
        mapping.add_mapping(alloc, self)
    }

    // The pairs, the oldest first.
    pub(crate) fn into_pairs(self) -> Vec<(SyntaxNode, SyntaxNode)>
        ensures pairs { reverse result.items ≡ self.pairs }
        ensures pairs_of_nodes { ArePairs result.items }
    {
        self.pairs
    }
}
