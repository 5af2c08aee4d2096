//! The annotated paths of the new tree, the elements of it that paths lead to, and `AnnotatedElements`, in which those of an annotation
//! are found.

ghost use Rattle.std.specs.Prelude.{◌≡◌, map, All, Some, IfOk};
ghost use Rattle.cst_core.specs.Element.{IsElement, element_at};
ghost use Rattle.cst_core.specs.SyntaxElement.{syntax_at};
ghost use Rattle.edit_change.specs.Topmost.{paths_of};
ghost use Rattle.edit_plan.specs.Plan.{found_for};
ghost use Rattle.edit_plan.specs.Engine.{annotated_path};
ghost use Rattle.edit_plan.specs.inner.Annotating.{AreNumbered, TellOf, AreFollowed, LeadByAnnotation};

use crate::annotation::SyntaxAnnotation;
use cst_core::{SyntaxElement, SyntaxNode};
use edit_map::SyntaxMapping;
use std::alloc::{AllocError, Global};
use std::marker::Model;

/// Where each registered element is followed to.
pub(crate) fn registered_copies(
    alloc: Global,
    mapping: &SyntaxMapping,
    registrations: &[(SyntaxElement, SyntaxAnnotation)],
) -> Result<Vec<SyntaxElement>, AllocError>
    ensures { TellOf mapping.now registrations.now → IfOk result (AreFollowed mapping.now registrations.now) }
{
    let mut reached = Vec::with_capacity(alloc, registrations.len())?;
    for registration in registrations {
        reached.push(mapping.follow(alloc, &registration.0)?)?;
    }
    Ok(reached)
}

/// Each registration's annotation with each path of a list for it, by registration. Takes time linear in the paths, which are moved.
pub(crate) fn annotated_paths(
    alloc: Global,
    registrations: &[(SyntaxElement, SyntaxAnnotation)],
    copies: Vec<Vec<Vec<usize>>>,
) -> Result<Vec<(SyntaxAnnotation, Vec<usize>)>, AllocError>
    ensures { IfOk result (AreNumbered (map (λ r. r.1) registrations.now) copies.items) }
{
    let mut found = Vec::with_capacity(alloc, copies.len())?;
    for (registration, paths) in registrations.iter().zip(copies) {
        for path in paths {
            found.push((registration.1, path))?;
        }
    }
    Ok(found)
}

/// The elements that these paths lead to, counted from a root. A path that leads to none is left out.
pub(crate) fn elements_at(
    alloc: Global,
    root: &SyntaxNode,
    paths: Vec<Vec<usize>>,
) -> Result<Vec<SyntaxElement>, AllocError>
    ensures { All (λ p. IsElement (element_at root.now p)) (paths_of paths.items)
        → IfOk result (λ v. map Some v.items ≡ map (syntax_at root.now) (paths_of paths.items)) }
{
    let mut elements = Vec::with_capacity(alloc, paths.len())?;
    for path in paths {
        if let Some(element) = root.element_of_tree(alloc, path)? {
            elements.push(element)?;
        }
    }
    Ok(elements)
}

/// Elements in the order of their annotations, those of one annotation as they came. The first annotation is that of the
/// first element, and so on.
#[derive(Drop)]
pub(crate) struct AnnotatedElements {
    annotations: Vec<SyntaxAnnotation>,
    elements: Vec<SyntaxElement>,
}

impl Model for AnnotatedElements {
    ghost use Rattle.std.specs.Prelude.{ℕ, List};
    ghost use Rattle.std.specs.List.{zip};
    ghost use Rattle.cst_core.specs.declared.element.SyntaxElement.{SyntaxElement};
    ghost use Rattle.edit_plan.specs.inner.Annotating.{AreByAnnotation};
    ghost use Rattle.edit_plan.specs.inner.Codes.{annotated_code};

    ghost Value = { List (ℕ × SyntaxElement) };

    ghost coded = { annotated_code };

    ghost view = { λ a. zip a.annotations.items a.elements.items };

    ghost invariant = { λ a. AreByAnnotation a.annotations.items a.elements.items };
}

impl AnnotatedElements {
    /// The elements that annotated paths lead to. Takes time linear in the paths where they come by annotation.
    pub(crate) fn at_paths(
        alloc: Global,
        root: &SyntaxNode,
        mut annotated: Vec<(SyntaxAnnotation, Vec<usize>)>,
    ) -> Result<AnnotatedElements, AllocError>
        requires { All (λ n. IsElement (element_at root.now n.1)) (map annotated_path annotated.items) }
        ensures { IfOk result (LeadByAnnotation root.now (map annotated_path annotated.items)) }
    {
        annotated.sort_by_key(|one| one.0)?;
        let mut annotations = Vec::with_capacity(alloc, annotated.len())?;
        let mut paths = Vec::with_capacity(alloc, annotated.len())?;
        for (annotation, path) in annotated {
            annotations.push(annotation)?;
            paths.push(path)?;
        }
        let elements = elements_at(alloc, root, paths)?;
        Ok(AnnotatedElements {
            annotations,
            elements,
        })
    }

    /// Each element with its annotation.
    pub(crate) fn registrations(
        &self,
        alloc: Global,
    ) -> Result<Vec<(SyntaxElement, SyntaxAnnotation)>, AllocError>
        ensures { IfOk result (λ v. v.items ≡ map (λ a. (a.1, a.0)) self.now) }
    {
        let mut all = Vec::with_capacity(alloc, self.elements.len())?;
        for (annotation, element) in self.annotations.iter().zip(self.elements.iter()) {
            all.push((element.try_clone(alloc)?, *annotation))?;
        }
        Ok(all)
    }

    /// The elements of an annotation.
    pub(crate) fn found_for(&self, annotation: SyntaxAnnotation) -> &[SyntaxElement]
        ensures { result.now ≡ found_for self.now annotation }
    {
        let annotations = self.annotations.as_slice();
        let end = annotations.partition_point(|one| *one <= annotation);
        let start = annotations[..end].partition_point(|one| *one < annotation);
        &self.elements[start..end]
    }
}
