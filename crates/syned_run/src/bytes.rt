//! A run over bytes, for callers that have a script in memory and room for its answer.
ghost use Rattle.std.specs.Prelude.{◌≡◌, ◌≤◌, ◌<◌, length};
ghost use Rattle.syned_run.specs.Bytes.{AnswersInto, AnswersIntoFor, ExplainsInto, ExplainsIntoFor, PutsInto};

use crate::answer::answer_to;
use crate::explained::explain_for;
use crate::status::{Failure, Status};
use std::alloc::Global;
use syned_script::Dialect;

/// How a run over bytes ended.
#[derive(Clone, Copy, Debug, PartialEq, Eq)]
pub struct Outcome {
    /// The exit status that `run` would give.
    pub status: u8,
    /// How many bytes the answer has, whether there was room for it or not. 0 for status 3.
    pub length: usize,
}

/// Carries out a script of these bytes and puts the answer at the beginning of `room`, if it fits; if it doesn't, and for status 3, the room
/// stays as it was. Status and answer are those of `run`. Nothing is kept between two calls.
///
/// ```text
/// let outcome = answer_into(alloc, script, &mut room);
/// if outcome.length > room.len() { .. once more, with room for outcome.length bytes .. }
/// ```
pub fn answer_into(alloc: Global, script: &[u8], room: &mut [u8]) -> Outcome
    ensures status { result.status ≤ 3 }
    ensures answered { result.status < 3
        → AnswersInto script.now result.status result.length room.old room.new }
    ensures failed { result.status ≡ 3 → result.length ≡ 0 }
    ensures failed_room { result.status ≡ 3 → room.new ≡ room.old }
{
    answer_into_for(alloc, Dialect::Syned, script, room)
}

/// `answer_into` of a script in a dialect.
pub fn answer_into_for(alloc: Global, dialect: Dialect, script: &[u8], room: &mut [u8]) -> Outcome
    ensures status { result.status ≤ 3 }
    ensures answered { result.status < 3
        → AnswersIntoFor dialect script.now result.status result.length room.old room.new }
    ensures failed { result.status ≡ 3 → result.length ≡ 0 }
    ensures failed_room { result.status ≡ 3 → room.new ≡ room.old }
{
    let Ok(answer) = answer_to(alloc, dialect, script) else {
        let status = Status::Failed(Failure::Memory).code();
        return Outcome { status, length: 0 };
    };
    let text = answer.text.as_bytes();
    put(room, text);
    Outcome {
        status: answer.status.code(),
        length: text.len(),
    }
}

/// Puts why a script of these bytes has no edit at the beginning of `room`, if it fits: the sentence of `explain`, without a newline, or `memory
/// ran out`. The answer is how many bytes the sentence has, which is more than 0; it is 0 exactly if the script has an edit, unless memory runs
/// out.
pub fn explain_into(alloc: Global, script: &[u8], room: &mut [u8]) -> usize
    ensures { ExplainsInto script.now result room.old room.new }
{
    explain_into_for(alloc, Dialect::Syned, script, room)
}

/// `explain_into` of a script in a dialect.
pub fn explain_into_for(alloc: Global, dialect: Dialect, script: &[u8], room: &mut [u8]) -> usize
    ensures { ExplainsIntoFor dialect script.now result room.old room.new }
{
    match explain_for(alloc, dialect, script) {
        Ok(None) => 0,
        Ok(Some(reason)) => put(room, reason.as_bytes()),
        Err(_) => put(room, Failure::Memory.as_str().as_bytes()),
    }
}

// Puts the bytes at the beginning of the room, if they fit. The answer is how many they are.
fn put(room: &mut [u8], bytes: &[u8]) -> usize
    ensures length { result ≡ length bytes.now }
    ensures put { PutsInto bytes.now room.old room.new }
{
    let count = bytes.len();
    if count <= room.len() {
        room[..count].copy_from_slice(bytes);
    }
    count
}
