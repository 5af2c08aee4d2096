//! The payloads of changes, as shared trees: each payload on its own, and as it stands where changes that it owns are carried out.

ghost use Rattle.std.specs.Prelude.{◌≡◌, [], ◌∷◌, map, IfOk};
ghost use Rattle.green_tree.specs.Green.{branch_tree};
ghost use Rattle.green_tree.specs.GreenElement.{element_tree, element_trees};
ghost use Rattle.edit_change.specs.inner.Fate.{fate};
ghost use Rattle.edit_steps.specs.inner.Payload.{BeginsPayload, BeginPayloads, payload_trees};
ghost use Rattle.edit_change.specs.inner.OneNode.{IsOneNode};

use crate::stage::Stage;
use cst_core::{GreenElement, GreenNode, SyntaxElement};
use edit_change::{Change, Fate, green_payload};
use std::alloc::{AllocError, Global};

// The payload of a change that replaces a node by a node and is not dropped. Nothing is done in it yet.
fn payload_stage(alloc: Global, change: &Change, fate: Fate) -> Result<Option<Stage>, AllocError>
    ensures { IfOk result (BeginsPayload change.now fate) }
{
    if fate.is_dropped() {
        return Ok(None);
    }
    match change {
        Change::Replace(SyntaxElement::Node(_), Some(SyntaxElement::Node(payload))) => {
            let green = payload.green(alloc)?;
            let stage = Stage::new(alloc, GreenElement::Node(green))?;
            Ok(Some(stage))
        }
        _ => Ok(None),
    }
}

/// Of each change the payload, if other changes may be carried out in it.
pub(crate) fn payload_stages(
    alloc: Global,
    changes: &[Change],
    fates: &[Fate],
) -> Result<Vec<Option<Stage>>, AllocError>
    requires { fates.now ≡ map (fate changes.now) changes.now }
    ensures { IfOk result (λ v. BeginPayloads changes.now v.items) }
{
    let mut stages = Vec::with_capacity(alloc, changes.len())?;
    for (number, change) in changes.iter().enumerate() {
        stages.push(payload_stage(alloc, change, fates[number])?)?;
    }
    Ok(stages)
}

// One element as a list.
fn one(alloc: Global, element: GreenElement) -> Result<Vec<GreenElement>, AllocError>
    ensures { IfOk result (λ v. element_trees v.items ≡ element_tree element ∷ []) }
{
    let mut only = Vec::with_capacity(alloc, 1)?;
    only.push(element)?;
    Ok(only)
}

/// What a change gives: its payload as it stands now, or, where no change can be carried out in that, as it was recorded.
pub(crate) fn given_elements(
    alloc: Global,
    change: &Change,
    payload: &Option<Stage>,
) -> Result<Vec<GreenElement>, AllocError>
    ensures { IfOk result (λ v. element_trees v.items ≡ payload_trees change.now payload.now) }
{
    match payload {
        Some(stage) => one(alloc, stage.element().share(alloc)?),
        None => green_payload(alloc, change),
    }
}
