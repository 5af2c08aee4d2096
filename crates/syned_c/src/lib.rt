//! `syned` for other languages: a static library with C's calling convention. docs/EMBEDDING.md says what a caller owes.
#![tactic(auto)]

ghost use Rattle.std.specs.Prelude.{◌≡◌, ◌≤◌, ◌<◌};
ghost use Rattle.syned_run.specs.Bytes.{AnswersInto, AnswersIntoFor, ExplainsInto, ExplainsIntoFor};

use std::alloc::Global;
use syned_run::{Dialect, answer_into_for, explain_into_for};

/// Carries out a script and puts the answer at the beginning of `room`, if it fits. What it gives is the exit status of `syned`, and `length`
/// is how many bytes the answer has, whether it fits or not: 0 for status 3. Nothing is kept between two calls.
///
/// In C: `uint8_t syned_run(const uint8_t *script, size_t script_length, uint8_t *room, size_t room_length, size_t *length)`.
/// No pointer is null, and `room` and `length` are of nobody else during the call.
#[unsafe(no_mangle)]
pub extern "C" fn syned_run(alloc: Global, script: &[u8], room: &mut [u8], length: &mut usize) -> u8
    ensures status { result ≤ 3 }
    ensures answered { result < 3 → AnswersInto script.now result length.new room.old room.new }
    ensures failed { result ≡ 3 → length.new ≡ 0 }
    ensures failed_room { result ≡ 3 → room.new ≡ room.old }
{
    run(alloc, Dialect::Syned, script, room, length)
}

/// Puts why a script has no edit at the beginning of `room`, if it fits: the line that `syned` prints on the standard error, without its newline.
/// What it gives is how many bytes it has, whether it fits or not, which is more than 0; it is 0 exactly if the script has an edit, unless memory
/// runs out.
///
/// In C: `size_t syned_explain(const uint8_t *script, size_t script_length, uint8_t *room, size_t room_length)`.
/// No pointer is null, and `room` is of nobody else during the call.
#[unsafe(no_mangle)]
pub extern "C" fn syned_explain(alloc: Global, script: &[u8], room: &mut [u8]) -> usize
    ensures { ExplainsInto script.now result room.old room.new }
{
    explain_into_for(alloc, Dialect::Syned, script, room)
}

/// `syned_run` of a script of the wide dialect, with the same parameters.
#[unsafe(no_mangle)]
pub extern "C" fn syned_run_wide(
    alloc: Global,
    script: &[u8],
    room: &mut [u8],
    length: &mut usize,
) -> u8
    ensures status { result ≤ 3 }
    ensures answered { result < 3 → AnswersIntoFor Dialect.Wide script.now result length.new room.old room.new }
    ensures failed { result ≡ 3 → length.new ≡ 0 }
    ensures failed_room { result ≡ 3 → room.new ≡ room.old }
{
    run(alloc, Dialect::Wide, script, room, length)
}

/// `syned_explain` of a script of the wide dialect, with the same parameters.
#[unsafe(no_mangle)]
pub extern "C" fn syned_explain_wide(alloc: Global, script: &[u8], room: &mut [u8]) -> usize
    ensures { ExplainsIntoFor Dialect.Wide script.now result room.old room.new }
{
    explain_into_for(alloc, Dialect::Wide, script, room)
}

fn run(alloc: Global, dialect: Dialect, script: &[u8], room: &mut [u8], length: &mut usize) -> u8
    ensures status { result ≤ 3 }
    ensures answered { result < 3 → AnswersIntoFor dialect script.now result length.new room.old room.new }
    ensures failed { result ≡ 3 → length.new ≡ 0 }
    ensures failed_room { result ≡ 3 → room.new ≡ room.old }
{
    let outcome = answer_into_for(alloc, dialect, script, room);
    *length = outcome.length;
    outcome.status
}
