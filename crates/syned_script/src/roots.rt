//! The trees of a script by name.
ghost use Rattle.std.specs.Prelude.{◌≡◌, ℕ, List, map, option_map, is_some, IfOk, IfErr, OnOk};
ghost use Rattle.syned_script.specs.State.{with_root, element_in, elements_in, node_in, position_in};
ghost use Rattle.script_lines.specs.LineValue.{ref_of, gap_of};
ghost use Rattle.syned_script.specs.inner.Stops.{NotThere};
ghost use Rattle.syned_script.specs.inner.SessionState.{roots_of};
ghost use Rattle.syned_script.specs.declared.stop.Stop.TheVariants.{Memory};

use crate::fault::Reason;
use crate::stop::Stop;
use cst_core::{SyntaxElement, SyntaxNode};
use script_lines::{Name, Reference, WrittenPosition};
use std::alloc::Global;
use std::collections::HashMap;
use syntax_editor::Position;

#[derive(Drop)]
pub(crate) struct Roots {
    roots: HashMap<String, SyntaxNode>,
}

impl Roots {
    pub(crate) fn new(alloc: Global) -> Roots
        ensures { (name : List ℕ) → roots_of result name ≡ None }
    {
        Roots {
            roots: HashMap::new(alloc),
        }
    }

    pub(crate) fn is_taken(&self, name: Name<'_>) -> bool
        ensures { result ≡ is_some (roots_of self.now name.entry.text.now) }
    {
        self.roots.contains_key(name.as_str())
    }

    pub(crate) fn get(&self, name: Name<'_>) -> Option<&SyntaxNode>
        ensures { option_map (λ root. root.now) result ≡ roots_of self.now name.entry.text.now }
    {
        self.roots.get(name.as_str())
    }

    /// Gives a root this name.
    pub(crate) fn add(
        &mut self,
        alloc: Global,
        name: Name<'_>,
        root: SyntaxNode,
    ) -> Result<(), Stop>
        ensures added { OnOk result (roots_of self.new ≡ with_root name.entry.text.now root (roots_of self.old)) }
        ensures memory { IfErr result (λ stop. stop ≡ Memory) }
    {
        let name = String::from_str(alloc, name.as_str())?;
        self.roots.insert(name, root)?;
        Ok(())
    }

    /// What a reference names; `Bad` where there is nothing.
    pub(crate) fn element(
        &self,
        alloc: Global,
        reference: &Reference<'_>,
    ) -> Result<SyntaxElement, Stop>
        ensures found { IfOk result (λ e. element_in (roots_of self.now) (ref_of reference.now) ≡ Some e) }
        ensures not_there { IfErr result (NotThere (element_in (roots_of self.now) (ref_of reference.now))) }
    {
        let at = reference.name.at();
        let Some(root) = self.get(reference.name) else {
            return Err(Stop::bad(at, Reason::NoTree));
        };
        let element = root.element_at(alloc, &reference.slots)?;
        element.ok_or(Stop::bad(at, Reason::NoElement))
    }

    /// The same of some references, in order.
    pub(crate) fn elements(
        &self,
        alloc: Global,
        references: &[Reference<'_>],
    ) -> Result<Vec<SyntaxElement>, Stop>
        ensures found { IfOk result
            (λ es. elements_in (roots_of self.now) (map ref_of references.now) ≡ Some es.items) }
        ensures not_there { IfErr result (NotThere (elements_in (roots_of self.now) (map ref_of references.now))) }
    {
        let mut elements = Vec::new(alloc);
        for reference in references {
            elements.push(self.element(alloc, reference)?)?;
        }
        Ok(elements)
    }

    /// The node that a reference names; `Bad` where there is none.
    pub(crate) fn node(&self, alloc: Global, reference: &Reference<'_>) -> Result<SyntaxNode, Stop>
        ensures found { IfOk result (λ n. node_in (roots_of self.now) (ref_of reference.now) ≡ Some n) }
        ensures not_there { IfErr result (NotThere (node_in (roots_of self.now) (ref_of reference.now))) }
    {
        let node = self.element(alloc, reference)?.into_node();
        node.ok_or(Stop::bad(reference.name.at(), Reason::NotANode))
    }

    /// The position that is written so; `Bad` where there is none.
    pub(crate) fn position(&self, alloc: Global, at: &WrittenPosition<'_>) -> Result<Position, Stop>
        ensures found { IfOk result (λ p. position_in (roots_of self.now) (gap_of at.now) ≡ Some p) }
        ensures not_there { IfErr result (NotThere (position_in (roots_of self.now) (gap_of at.now))) }
    {
        match at {
            WrittenPosition::First(node) => {
                let node = self.node(alloc, node)?;
                Position::first_child_of(alloc, &node).map_err(Stop::from)
            }
            WrittenPosition::Last(node) => {
                let node = self.node(alloc, node)?;
                Position::last_child_of(alloc, &node).map_err(Stop::from)
            }
            WrittenPosition::Before(element) => {
                let at = element.name.at();
                let element = self.element(alloc, element)?;
                gap(at, Position::before(alloc, element)?)
            }
            WrittenPosition::After(element) => {
                let at = element.name.at();
                let element = self.element(alloc, element)?;
                gap(at, Position::after(alloc, element)?)
            }
        }
    }
}

// A root has no gap beside it; the reference to it begins at this byte of the line.
fn gap(at: usize, position: Option<Position>) -> Result<Position, Stop>
    ensures found { IfOk result (λ p. position ≡ Some p) }
    ensures not_there { IfErr result (NotThere position) }
{
    position.ok_or(Stop::bad(at, Reason::BesideRoot))
}
