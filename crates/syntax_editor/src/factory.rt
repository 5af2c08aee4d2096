//! `SyntaxFactory`: makes tokens and nodes, and keeps which one is the copy of which, if it was made with mappings.

ghost use Rattle.std.specs.Prelude.{◌≡◌, ◌↔◌, ◌+◌, ◌<◌, ◌≤◌, [], length, false, None, Some, unwrap_or, option_map, IfOk, IfErr, OnOk, OnErr};
ghost use Rattle.std.specs.Borrow.{sem};
ghost use Rattle.cst_core.specs.Tree.{SameShape, text};
ghost use Rattle.cst_core.specs.Element.{subtree};
ghost use Rattle.edit_map.specs.Builder.{IsMadeOf};
ghost use Rattle.whitespace.specs.Indentation.{mapped_children};
ghost use Rattle.whitespace.specs.MappedAlong.{is_too_old, MapsAlong};
ghost use Rattle.whitespace.specs.inner.AlongRefusal.{AlongRefuses};
ghost use Rattle.cst_core.specs.Green.{length_limit, IsTooLong};
ghost use Rattle.cst_core.specs.TreeIds.{LacksNumber};
ghost use Rattle.cst_core.specs.declared.element.SyntaxElement.TheVariants.{Token};
ghost use Rattle.whitespace.specs.IndentCalls.{fresh_root};
ghost use Rattle.whitespace.specs.Spacing.{lone_token, whitespace, LacksTokenNumber};
ghost use Rattle.syntax_editor.specs.Editor.{HasPairs};
ghost use Rattle.syntax_editor.specs.Making.{node_tree};
ghost use Rattle.syntax_editor.specs.Lending.{LendsMappings};

use crate::fresh_node::fresh_node;
use cst_core::{SyntaxElement, SyntaxKind, SyntaxNode, SyntaxToken, TreeError, TreeIds};
use edit_map::{SyntaxMapping, SyntaxMappingBuilder};
use std::alloc::{AllocError, Global};
use std::marker::Model;
use whitespace::{IndentError, map_children, token, whitespace};

/// What makes new elements, and keeps which node is the copy of which one where it has mappings.
#[derive(Drop)]
pub struct SyntaxFactory {
    mappings: Option<SyntaxMapping>,
}

impl Model for SyntaxFactory {
    ghost use Rattle.std.specs.Prelude.{Option};
    ghost use Rattle.edit_map.specs.Mapping.{Mapping};
    ghost use Rattle.syntax_editor.specs.inner.Codes.{factory_code};

    ghost Value = { Option Mapping };

    ghost coded = { factory_code };

    ghost view = { λ a. a.mappings };
}

impl SyntaxFactory {
    /// A factory with a mapping of nothing.
    pub fn with_mappings(alloc: Global) -> SyntaxFactory
        ensures { result ≡ Some [] }
    {
        SyntaxFactory {
            mappings: Some(SyntaxMapping::new(alloc)),
        }
    }

    /// A factory that keeps no mappings.
    pub fn without_mappings(_alloc: Global) -> SyntaxFactory
        ensures { result ≡ None }
    {
        SyntaxFactory { mappings: None }
    }

    /// The mappings, of a factory that keeps some.
    pub fn mappings(&mut self) -> Option<&mut SyntaxMapping>
        ensures* writes_back { sem 𝓛 (LendsMappings self.entry result) }
        ensures value { option_map (λ m. m.now) result ≡ self.old }
    {
        self.mappings.as_mut()
    }

    /// Takes up the pairs of a builder, whose copies win over those that are there. After it the factory keeps mappings.
    pub(crate) fn add_mapping(
        &mut self,
        alloc: Global,
        builder: SyntaxMappingBuilder,
    ) -> Result<(), AllocError>
        ensures ok { OnOk result (HasPairs builder.pairs self.old self.new) }
        ensures err { OnErr result (self.new ≡ self.old) }
    {
        match &mut self.mappings {
            Some(mapping) => mapping.add_mapping(alloc, builder),
            None => {
                let mut mapping = SyntaxMapping::new(alloc);
                mapping.add_mapping(alloc, builder)?;
                self.mappings = Some(mapping);
                Ok(())
            }
        }
    }

    /// A factory with these mappings.
    pub(crate) fn of_mapping(mapping: SyntaxMapping) -> SyntaxFactory
        ensures { result ≡ Some mapping }
    {
        SyntaxFactory {
            mappings: Some(mapping),
        }
    }

    /// The mappings, or these where the factory keeps none.
    pub(crate) fn mappings_or<'a>(&'a self, nothing: &'a SyntaxMapping) -> &'a SyntaxMapping
        ensures { result.now ≡ unwrap_or self.now nothing.now }
    {
        match &self.mappings {
            Some(mapping) => mapping,
            None => nothing,
        }
    }

    /// A copy of the mappings, of nothing where the factory keeps none.
    pub(crate) fn cloned_mapping(&self, alloc: Global) -> Result<SyntaxMapping, AllocError>
        ensures { IfOk result (IsMadeOf (unwrap_or self.now [])) }
    {
        match &self.mappings {
            Some(mapping) => mapping.try_clone(alloc),
            None => Ok(SyntaxMapping::new(alloc)),
        }
    }

    /// A token of the kind WHITESPACE, alone below a root of the kind SOURCE_FILE, in a tree of its own under the next number of
    /// `ids`. Its text is not looked at.
    ///
    /// `TooLong` comes first, where the text passes 4,294,967,295 bytes, then `NoTreeNumber`, then `Memory`; none of them draws
    /// a number.
    pub fn whitespace(
        &self,
        alloc: Global,
        ids: &mut TreeIds,
        text: &str,
    ) -> Result<SyntaxToken, TreeError>
        ensures ok { IfOk result (λ t. Token t ≡ whitespace ids.old text.now) }
        ensures drawn { OnOk result (ids.new ≡ ids.old + 1) }
        ensures too_long { (result ≡ Err TreeError.TooLong) ↔ (length_limit ≤ length text.now) }
        ensures no_number { (result ≡ Err TreeError.NoTreeNumber) ↔ LacksTokenNumber ids.old text.now }
        ensures err { OnErr result (ids.new ≡ ids.old) }
    {
        whitespace(alloc, ids, text)
    }

    /// A token of this kind and text, alone below a root of the kind SOURCE_FILE, in a tree of its own under the next number of
    /// `ids`. Whether a token of the kind has such a text is not looked at.
    ///
    /// `TooLong` comes first, where the text passes 4,294,967,295 bytes, then `NoTreeNumber`, then `Memory`; none of them draws
    /// a number.
    pub fn token(
        &self,
        alloc: Global,
        ids: &mut TreeIds,
        kind: SyntaxKind,
        text: &str,
    ) -> Result<SyntaxToken, TreeError>
        ensures ok { IfOk result (λ t. Token t ≡ lone_token ids.old kind text.now) }
        ensures drawn { OnOk result (ids.new ≡ ids.old + 1) }
        ensures too_long { (result ≡ Err TreeError.TooLong) ↔ (length_limit ≤ length text.now) }
        ensures no_number { (result ≡ Err TreeError.NoTreeNumber) ↔ LacksTokenNumber ids.old text.now }
        ensures err { OnErr result (ids.new ≡ ids.old) }
    {
        token(alloc, ids, kind, text)
    }

    /// A node of this kind with these elements as its children, in order: the root of a tree of its own under the next number of
    /// `ids`. The elements may be of any trees, and stay as they are; what is below them is shared, not copied. Nothing is mapped.
    ///
    /// ```text
    /// let name = make.token(alloc, ids, SyntaxKind::IDENT, "total")?;
    /// let name = make.node(alloc, ids, SyntaxKind::NAME, &[SyntaxElement::Token(name)])?;
    /// ```
    ///
    /// `TooLong` comes first, where the text passes 4,294,967,295 bytes, then `NoTreeNumber`, then `Memory`; none of them draws
    /// a number.
    pub fn node(
        &self,
        alloc: Global,
        ids: &mut TreeIds,
        kind: SyntaxKind,
        children: &[SyntaxElement],
    ) -> Result<SyntaxNode, TreeError>
        ensures ok { IfOk result (λ n. n ≡ fresh_root ids.old (node_tree kind children.now)) }
        ensures drawn { OnOk result (ids.new ≡ ids.old + 1) }
        ensures too_long { (result ≡ Err TreeError.TooLong) ↔ IsTooLong (text (node_tree kind children.now)) }
        ensures no_number { (result ≡ Err TreeError.NoTreeNumber) ↔ LacksNumber ids.old (node_tree kind children.now) }
        ensures err { OnErr result (ids.new ≡ ids.old) }
    {
        fresh_node(alloc, ids, kind, children)
    }

    // Maps each child node of a node as the copy of which the child node of another one at the same index is, where the factory
    // keeps mappings.
    pub(crate) fn map_children(
        &mut self,
        alloc: Global,
        old: &SyntaxNode,
        new: &SyntaxNode,
    ) -> Result<(), IndentError>
        requires { SameShape (subtree old.now) (subtree new.now) }
        ensures ok { OnOk result (MapsAlong (mapped_children old.now new.now) self.old self.new) }
        ensures accepted { OnOk result (is_too_old self.old old.now new.now.number ≡ false) }
        ensures refused { IfErr result (AlongRefuses (is_too_old self.old old.now new.now.number)) }
        ensures unchanged { OnErr result (self.new ≡ self.old) }
    {
        match &mut self.mappings {
            Some(mapping) => map_children(alloc, old, new, mapping),
            None => Ok(()),
        }
    }

    /// The mappings by value, of nothing where the factory keeps none.
    pub(crate) fn into_mapping(self, alloc: Global) -> SyntaxMapping
        ensures { result ≡ unwrap_or self [] }
    {
        match self.mappings {
            Some(mapping) => mapping,
            None => SyntaxMapping::new(alloc),
        }
    }
}
