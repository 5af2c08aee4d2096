//! Names that a line gives to further kinds.
ghost use Rattle.std.specs.Prelude.{◌≡◌, [], ◌∷◌, ◌++◌, IfErr, OnOk};
ghost use Rattle.script_lines.specs.LineValue.{texts_of};
ghost use Rattle.tree_text.specs.KindNames.{next_kind};
ghost use Rattle.syned_script.specs.State.{IsFree, AreFree, named};
ghost use Rattle.syned_script.specs.inner.Stops.{StopsFor};

use crate::fault::Reason;
use crate::stop::Stop;
use script_lines::{Field, Flaw, Wanted};
use std::alloc::Global;
use tree_text::{KindNames, NameError};

const MISSPELLED: Reason = Reason::Flaw(Flaw::Wanted(Wanted::NewKind));

/// Gives each name to the next kind, in order; `Bad` at the first that is no name for it.
pub(crate) fn name_kinds(
    alloc: Global,
    names: &mut KindNames,
    fields: &[Field<'_>],
) -> Result<(), Stop>
    ensures named { OnOk result (names.new ≡ named names.old (texts_of fields.now)) }
    ensures free { OnOk result (AreFree names.old (texts_of fields.now)) }
    ensures stops { IfErr result (StopsFor (AreFree names.old (texts_of fields.now) → ⊥) (λ r. ⊥)) }
{
    for field in fields {
        name_kind(alloc, names, *field)?;
    }
    Ok(())
}

fn name_kind(alloc: Global, names: &mut KindNames, field: Field<'_>) -> Result<(), Stop>
    ensures named { OnOk result (names.new ≡ names.old ++ (next_kind names.old, field.entry.text.now) ∷ []) }
    ensures free { OnOk result (IsFree names.old field.entry.text.now) }
    ensures stops { IfErr result (StopsFor (IsFree names.old field.entry.text.now → ⊥) (λ r. ⊥)) }
{
    let Some(kind) = names.next_kind() else {
        return Err(Stop::bad(field.at, Reason::NoKindLeft));
    };
    match names.add(alloc, kind, field.text) {
        Ok(()) => Ok(()),
        Err(NameError::Misspelled) => Err(Stop::bad(field.at, MISSPELLED)),
        Err(NameError::Named) => Err(Stop::bad(field.at, Reason::NoKindLeft)),
        Err(NameError::Taken) => Err(Stop::bad(field.at, Reason::KindTaken)),
        Err(NameError::Memory) => Err(Stop::Memory),
    }
}
