//! A line that says which node is a copy of another one.
ghost use Rattle.std.specs.Prelude.{IfOk, IfErr, OnOk};
ghost use Rattle.script_lines.specs.LineValue.{ref_of};
ghost use Rattle.syned_script.specs.State.{node_in};
ghost use Rattle.syned_script.specs.inner.Mapped.{IsAdded, AddingStops, IsPairOf, PairStops, MapGives};
ghost use Rattle.syned_script.specs.inner.SessionState.{roots_of};

use crate::roots::Roots;
use crate::stop::Stop;
use script_lines::Reference;
use std::alloc::Global;
use syntax_editor::{SyntaxEditor, SyntaxMappingBuilder};

/// Maps a node to its copy, a child of the parent.
pub(crate) fn map_pair(
    alloc: Global,
    roots: &Roots,
    editor: &mut SyntaxEditor,
    parent: &Reference<'_>,
    input: &Reference<'_>,
    output: &Reference<'_>,
) -> Result<(), Stop>
    ensures { MapGives
        (node_in (roots_of roots.now) (ref_of parent.now)) (node_in (roots_of roots.now) (ref_of input.now))
        (node_in (roots_of roots.now) (ref_of output.now)) editor.old result editor.new }
{
    let pair = pair_of(alloc, roots, parent, input, output)?;
    editor.add_mapping(alloc, pair).map_err(Stop::from)
}

// The pair of a node and its copy below a parent.
fn pair_of(
    alloc: Global,
    roots: &Roots,
    parent: &Reference<'_>,
    input: &Reference<'_>,
    output: &Reference<'_>,
) -> Result<SyntaxMappingBuilder, Stop>
    ensures pair { IfOk result (IsPairOf
        (node_in (roots_of roots.now) (ref_of parent.now)) (node_in (roots_of roots.now) (ref_of input.now))
        (node_in (roots_of roots.now) (ref_of output.now))) }
    ensures stops { IfErr result (PairStops
        (node_in (roots_of roots.now) (ref_of parent.now)) (node_in (roots_of roots.now) (ref_of input.now))
        (node_in (roots_of roots.now) (ref_of output.now))) }
{
    let mut builder = SyntaxMappingBuilder::new(alloc, roots.node(alloc, parent)?);
    map_node(alloc, roots, &mut builder, input, output)?;
    Ok(builder)
}

fn map_node(
    alloc: Global,
    roots: &Roots,
    builder: &mut SyntaxMappingBuilder,
    input: &Reference<'_>,
    output: &Reference<'_>,
) -> Result<(), Stop>
    ensures added { OnOk result (IsAdded (node_in (roots_of roots.now) (ref_of input.now))
        (node_in (roots_of roots.now) (ref_of output.now)) builder.old builder.new) }
    ensures stops { IfErr result (AddingStops (node_in (roots_of roots.now) (ref_of input.now))
        (node_in (roots_of roots.now) (ref_of output.now)) builder.old.parent) }
{
    let input = roots.node(alloc, input)?;
    let output = roots.node(alloc, output)?;
    builder.map_node(alloc, input, output).map_err(Stop::from)
}
