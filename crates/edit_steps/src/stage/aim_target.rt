//! `AimTarget`: the node whose children an aim alters, and where among them, if the old element has it.

ghost use Rattle.std.specs.Prelude.{◌≡◌, ◌<◌, ◌+◌, ◌^◌, option_map, IfSome};
ghost use Rattle.green_tree.specs.GreenElement.{element_tree};
ghost use Rattle.edit_steps.specs.inner.Widths.{index_of, count_of};
ghost use Rattle.edit_steps.specs.inner.AimTargets.{child_count, child_at, child_of, live_target, site_of};

use crate::stage::among::Among;
use edit_change::{AimForm, Aimed};
use green_tree::{GreenElement, GreenElementRef};

/// The node whose children an aim alters, by its path, and where among them.
#[derive(Clone, Copy)]
pub(crate) struct AimTarget<'a> {
    pub(crate) parent: &'a [usize],
    pub(crate) at: Among,
}

// A child of the old element, with how many children of its parent there are from it on.
#[derive(Clone, Copy)]
struct OldChild<'a> {
    parent: &'a [usize],
    slot: usize,
    left: usize,
}

// How many children the node at this path has. `None` where the path leads to no node.
fn child_count(element: &GreenElement, path: &[usize]) -> Option<usize>
    ensures { result ≡ child_count (element_tree element.now) path.now }
{
    let GreenElement::Node(top) = element else {
        return None;
    };
    match top.get(path)? {
        GreenElementRef::Node(node) => Some(node.children().len()),
        GreenElementRef::Token(_) => None,
    }
}

// The child at this path. The top is none.
fn child_at<'a>(element: &GreenElement, path: &'a [usize]) -> Option<OldChild<'a>>
    ensures child { option_map child_of result ≡ child_at (element_tree element.now) path.now }
    ensures some { IfSome result (λ c. 0 < c.left) }
    ensures fits { IfSome result (λ c. c.slot + c.left < 2 ^ 64) }
{
    let [parent @ .., slot] = path else {
        return None;
    };
    let count = child_count(element, parent)?;
    if *slot < count {
        return Some(OldChild {
            parent,
            slot: *slot,
            left: count - *slot,
        });
    }
    None
}

impl<'a> AimTarget<'a> {
    // Where an aim alters the element. `None` where its node, its gap or its first slot is not there. Of a range the slots
    // count that are there.
    pub(crate) fn of(element: &GreenElement, aim: &Aimed<'a>) -> Option<AimTarget<'a>>
        ensures site { option_map site_of result ≡ live_target (element_tree element.now) aim.now.path.now aim.now.form }
        ensures fits { IfSome result (λ t. index_of t.at + count_of t.at < 2 ^ 64) }
    {
        match aim.form {
            AimForm::FirstIn => {
                child_count(element, aim.path)?;
                Some(AimTarget {
                    parent: aim.path,
                    at: Among::Gap(0),
                })
            }
            AimForm::AfterElement => {
                let child = child_at(element, aim.path)?;
                Some(AimTarget {
                    parent: child.parent,
                    at: Among::Gap(child.slot + 1),
                })
            }
            AimForm::Over(0) => None,
            AimForm::Over(wanted) => {
                let child = child_at(element, aim.path)?;
                let at = Among::Slots {
                    first: child.slot,
                    count: wanted.min(child.left),
                };
                Some(AimTarget {
                    parent: child.parent,
                    at,
                })
            }
        }
    }
}
