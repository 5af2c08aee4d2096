//! The child nodes of a node, mapped as those of another one of its shape are copies of them.
ghost use Rattle.std.specs.Prelude.{◌≡◌, ◌++◌, reverse, false, IfOk, IfErr, OnOk, OnErr};
ghost use Rattle.cst_core.specs.Tree.{SameShape};
ghost use Rattle.cst_core.specs.Element.{subtree};
ghost use Rattle.edit_map.specs.Builder.{IsMadeOf};
ghost use Rattle.whitespace.specs.Indentation.{mapped_children};
ghost use Rattle.whitespace.specs.MappedAlong.{is_not_younger};
ghost use Rattle.whitespace.specs.inner.AlongRefusal.{AlongRefuses};

use crate::indent_error::IndentError;
use cst_core::SyntaxNode;
use edit_map::{SyntaxMapping, SyntaxMappingBuilder};
use std::alloc::Global;

/// Maps each child node of a node as the copy of which the child node at the same index of another node of its shape is, in
/// front of the pairs that the mapping has.
///
/// `NotYounger` comes exactly where there is a child node and the number of the new node is not greater than that of the old one;
/// else only `Memory` comes. The mapping is unchanged after each.
pub fn map_children(
    alloc: Global,
    old: &SyntaxNode,
    new: &SyntaxNode,
    mapping: &mut SyntaxMapping,
) -> Result<(), IndentError>
    requires { SameShape (subtree old.now) (subtree new.now) }
    ensures ok { OnOk result (IsMadeOf (reverse (mapped_children old.now new.now) ++ mapping.old) mapping.new) }
    ensures accepted { OnOk result (is_not_younger old.now new.now.number ≡ false) }
    ensures refused { IfErr result (AlongRefuses (is_not_younger old.now new.now.number)) }
    ensures unchanged { OnErr result (mapping.new ≡ mapping.old) }
{
    let builder = children_builder(alloc, old, new)?;
    Ok(builder.finish(alloc, mapping)?)
}

// A builder of these pairs.
fn children_builder(
    alloc: Global,
    old: &SyntaxNode,
    new: &SyntaxNode,
) -> Result<SyntaxMappingBuilder, IndentError>
    requires { SameShape (subtree old.now) (subtree new.now) }
    ensures ok { IfOk result (λ b. b.pairs ≡ reverse (mapped_children old.now new.now)) }
    ensures accepted { OnOk result (is_not_younger old.now new.now.number ≡ false) }
    ensures refused { IfErr result (AlongRefuses (is_not_younger old.now new.now.number)) }
{
    // For the proof: what stands at their paths are nodes.
    let _ = (old.kind(), new.kind());
    let inputs = old.children(alloc)?;
    let outputs = new.children(alloc)?;
    let mut builder = SyntaxMappingBuilder::new(alloc, new.try_clone(alloc)?);
    match builder.map_children(alloc, &inputs, &outputs) {
        Ok(()) => Ok(builder),
        Err(error) => Err(IndentError::of_pairs(error)),
    }
}
