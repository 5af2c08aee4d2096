//! `Rewritten`: what an engine answers, namely the new tree with the paths of changed and annotated elements.

use crate::annotation::SyntaxAnnotation;
use cst_core::GreenNode;

/// The new tree of a plan, before it is a root's, and where its changed and annotated elements are.
///
/// A path counts slots from 0, from the new root down: the empty path is that of the root itself.
#[derive(Drop)]
pub struct Rewritten {
    /// The new tree.
    pub green: GreenNode,
    /// The paths, in document order, of the elements that changes without an owner brought and whose parent none did.
    pub changed: Vec<Vec<usize>>,
    /// The paths of the elements that were copied from what is registered, each with its annotation, by registration and then in
    /// document order.
    pub annotated: Vec<(SyntaxAnnotation, Vec<usize>)>,
}
