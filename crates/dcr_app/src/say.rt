// Ends without a run.
ghost use Rattle.std.specs.Prelude.{◌≡◌, ◌⊎◌, MatchResult};
ghost use Rattle.dcr_roles.specs.Accepted.{HadMemory};
ghost use Rattle.dcr_app.specs.Answers.{RefusesBy};
ghost use Rattle.dcr_app.specs.Outside.{IsStarved, Wrote};
ghost use Rattle.dcr_app.specs.Refusal.{refusal_line};
ghost use Rattle.dcr_app.specs.Stored.{EndsFor};

use crate::answer::Answer;
use crate::lines::{Line, numbered};
use crate::refusal::line_of;
use dcr_base::{Sink, Status, write_all};
use dcr_roles::AcceptStop;
use dcr_tape::TapeCause;
use std::alloc::Global;

/// Writes a line that is due with this status.
pub(crate) fn say<O: Sink>(output: &mut O, line: &[u8], status: Status) -> Status
    ensures wrote { Wrote status line.now result (O.takes output.old) (O.takes output.new) }
    ensures told { (result ≡ status) ⊎ (result ≡ Status.WriteFault) }
{
    match write_all(output, line) {
        Ok(()) => status,
        Err(_) => Status::WriteFault,
    }
}

/// The same of a line for which memory was wanted. Nothing is written where there was none.
pub(crate) fn tell<O: Sink>(output: &mut O, line: Line, status: Status) -> Status
    ensures { MatchResult line (λ line. Wrote status line.items result (O.takes output.old) (O.takes output.new))
        (λ _. IsStarved result (O.takes output.old) (O.takes output.new)) }
{
    match line {
        Ok(line) => say(output, &line, status),
        Err(_) => Status::NoMemory,
    }
}

/// Tells a refusal. Nothing is written where it is want of memory, or where memory could not be had for the line.
pub(crate) fn refuse<O: Sink>(alloc: Global, output: &mut O, stop: &AcceptStop) -> Answer
    ensures { RefusesBy (HadMemory stop.now) (refusal_line stop.now) (O.takes output.old) (O.takes output.new) result }
{
    let status = tell(output, line_of(alloc, stop), Status::Refused);
    Answer(status, None, None)
}

/// Tells why a disk is refused as the tape of a case. Nothing is written where the disk failed or memory ran out, or where
/// memory could not be had for the line.
pub(crate) fn refuse_tape<O: Sink>(alloc: Global, output: &mut O, cause: TapeCause) -> Status
    ensures { EndsFor cause result (O.takes output.old) (O.takes output.new) }
{
    match cause {
        TapeCause::DiskFault => Status::DiskFault,
        TapeCause::NoMemory => Status::NoMemory,
        TapeCause::NotTape => say(output, b"tape not-tape\n", Status::TapeRefused),
        TapeCause::OtherGraph { .. } => say(output, b"tape other-case\n", Status::TapeRefused),
        TapeCause::Long => say(output, b"tape long\n", Status::TapeRefused),
        TapeCause::BadTape { at } => {
            let line = numbered(alloc, b"tape bad ", at);
            tell(output, line, Status::TapeRefused)
        }
    }
}
