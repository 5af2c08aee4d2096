//! `Position`: a gap, which is after an element or the first one of a node.

ghost use Rattle.std.specs.Prelude.{◌≡◌, IfOk, option_map};
ghost use Rattle.cst_core.specs.Path.{Path};
ghost use Rattle.edit_change.specs.PositionForm.{FirstChild};
ghost use Rattle.edit_change.specs.Position.{anchor, first_of, after_of, after, before, last_child_of};
ghost use Rattle.edit_change.specs.inner.AimFrom.{position_aim_from};
ghost use Rattle.edit_change.specs.inner.Aimed.{aim_in};

use crate::aimed::AimForm;
use crate::element_like::Element;
use cst_core::{SyntaxElement, SyntaxNode};
use std::alloc::{AllocError, Global};
use std::marker::Model;

#[derive(Drop)]
enum Form {
    FirstChild(SyntaxNode),
    After(SyntaxElement),
}

/// A gap among the children of a node, where an insert puts its elements.
pub struct Position {
    form: Form,
}

// One call lets a value go, not one for each field.
impl Drop for Position {
    fn drop(self) {
        let Position { form: _ } = self;
    }
}

impl Model for Position {
    ghost use Rattle.edit_change.specs.PositionForm.{PositionForm};
    ghost use Rattle.edit_change.specs.inner.PositionCode.{position_code};
    ghost use Rattle.edit_change.specs.PositionInCode.{form_of};

    ghost Value = { PositionForm };

    ghost coded = { position_code };

    ghost view = { λ a. form_of a.form };
}

impl Position {
    /// The gap before the first child of `node`.
    pub fn first_child_of(alloc: Global, node: &SyntaxNode) -> Result<Position, AllocError>
        ensures { IfOk result (λ p. p ≡ FirstChild node.now) }
    {
        Ok(Position {
            form: Form::FirstChild(node.try_clone(alloc)?),
        })
    }

    /// The gap after the last child of `node`; the first gap of `node` if it has no child.
    pub fn last_child_of(alloc: Global, node: &SyntaxNode) -> Result<Position, AllocError>
        ensures { IfOk result (λ p. p ≡ last_child_of node.now) }
    {
        match node.last_child_or_token(alloc)? {
            Some(last) => Ok(Position {
                form: Form::After(last),
            }),
            None => Position::first_child_of(alloc, node),
        }
    }

    /// The gap after an element, before the next slot. `None` exactly for a root, which has no gap beside it.
    pub fn after<E: Element>(alloc: Global, element: E) -> Result<Option<Position>, AllocError>
        ensures { IfOk result (λ r. r ≡ after (E.element element)) }
    {
        let element = element.syntax_element(alloc)?;
        Ok(Position::gap_after(element))
    }

    /// The gap before an element. It is the gap after the previous sibling if there is one, else the first gap of the parent.
    /// `None` exactly for a root.
    pub fn before<E: Element>(alloc: Global, element: E) -> Result<Option<Position>, AllocError>
        ensures { IfOk result (λ r. r ≡ before (E.element element)) }
    {
        let element = element.syntax_element(alloc)?;
        Position::ahead_of(alloc, &element)
    }

    fn gap_after(element: SyntaxElement) -> Option<Position>
        ensures { result ≡ after element }
    {
        if element.slots().is_empty() {
            return None;
        }
        Some(Position {
            form: Form::After(element),
        })
    }

    fn ahead_of(alloc: Global, element: &SyntaxElement) -> Result<Option<Position>, AllocError>
        ensures { IfOk result (λ r. r ≡ before element.now) }
    {
        let Some(parent) = element.parent(alloc)? else {
            return Ok(None);
        };
        match element.prev_sibling_or_token(alloc)? {
            Some(previous) => Ok(Some(Position {
                form: Form::After(previous),
            })),
            None => Ok(Some(Position {
                form: Form::FirstChild(parent),
            })),
        }
    }

    /// The path of the node whose first gap this position is, or of the element that it directly follows.
    pub fn anchor(&self) -> &[usize]
        ensures { result.now ≡ (anchor self.now).path }
    {
        match &self.form {
            Form::FirstChild(node) => node.slots(),
            Form::After(element) => element.slots(),
        }
    }

    /// The node whose first gap this position is, if it is one.
    pub fn first_of(&self) -> Option<&SyntaxNode>
        ensures { option_map (λ n. n.now) result ≡ first_of self.now }
    {
        match &self.form {
            Form::FirstChild(node) => Some(node),
            Form::After(_) => None,
        }
    }

    /// The element that this position directly follows, if any.
    pub fn after_of(&self) -> Option<&SyntaxElement>
        ensures { option_map (λ e. e.now) result ≡ after_of self.now }
    {
        match &self.form {
            Form::FirstChild(_) => None,
            Form::After(element) => Some(element),
        }
    }

    // How an insert at this position aims from its anchor.
    pub(crate) fn aim_form(&self) -> AimForm
        ensures { (p : Path) → aim_in p result ≡ position_aim_from p self.now }
    {
        match &self.form {
            Form::FirstChild(_) => AimForm::FirstIn,
            Form::After(_) => AimForm::AfterElement,
        }
    }
}
