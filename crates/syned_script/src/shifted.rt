//! Nodes that are put a level further in or out, as trees of their own.
ghost use Rattle.std.specs.Prelude.{◌≡◌, ◌+◌, IfOk, IfErr, OnOk, OnErr, None};
ghost use Rattle.syntax_editor.specs.Element.{subtree};
ghost use Rattle.syntax_editor.specs.IndentCalls.{fresh_root};
ghost use Rattle.syned_script.specs.State.{root_refusal, shifted};
ghost use Rattle.syned_script.specs.inner.Stops.{ShiftStops};

use crate::stop::Stop;
use cst_core::{SyntaxNode, TreeIds};
use script_lines::Shift;
use std::alloc::Global;
use whitespace::{IndentLevel, dedent, indent};

const ONE: IndentLevel = IndentLevel(1);

/// The node, a level further in or out, as the root of a tree under the next number.
pub(crate) fn shifted(
    alloc: Global,
    shift: Shift,
    node: &SyntaxNode,
    ids: &mut TreeIds,
) -> Result<SyntaxNode, Stop>
    ensures ok { IfOk result (λ n. n ≡ fresh_root ids.old (shifted shift (subtree node.now))) }
    ensures drawn { OnOk result (ids.new ≡ ids.old + 1) }
    ensures accepted { OnOk result (root_refusal ids.old (shifted shift (subtree node.now)) ≡ None) }
    ensures stops { IfErr result (ShiftStops ids.old (shifted shift (subtree node.now))) }
    ensures err { OnErr result (ids.new ≡ ids.old) }
{
    match shift {
        Shift::Indent => indent(alloc, node, ids, ONE).map_err(Stop::from),
        Shift::Dedent => dedent(alloc, node, ids, ONE).map_err(Stop::from),
    }
}
