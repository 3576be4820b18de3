// The command `replay`.
ghost use Rattle.std.specs.Prelude.{◌≡◌, ◌≤◌, length, IfOk};
ghost use Rattle.dcr_app.specs.Answers.{AnswersPlain, verdict_line, verdict_status};
ghost use Rattle.dcr_app.specs.declared.command.Reading.TheVariants.{Replay};

use crate::answer::Answer;
use crate::lines::{Line, numbered, numbered_word};
use crate::say::tell;
use dcr_base::{Sink, Status};
use dcr_replay::{Verdict, check_report};
use std::alloc::Global;

/// Tells the verdict of a report.
pub(crate) fn replay<O: Sink>(alloc: Global, bytes: &[u8], output: &mut O) -> Answer
    requires { length bytes.now ≤ 268435456 }
    ensures { AnswersPlain Replay bytes.now (O.takes output.old) (O.takes output.new) result }
{
    let Ok(verdict) = check_report(alloc, bytes) else {
        return Answer(Status::NoMemory, None, None);
    };
    let status = tell(output, line_of(alloc, verdict), status_of(verdict));
    Answer(status, None, None)
}

// The line that tells a verdict.
fn line_of(alloc: Global, verdict: Verdict) -> Line
    ensures { IfOk result (λ line. line.items ≡ verdict_line verdict) }
{
    match verdict {
        Verdict::Valid { entries } => numbered(alloc, b"valid ", entries),
        Verdict::Invalid { line, kind } => {
            numbered_word(alloc, b"invalid ", line, kind.word().as_bytes())
        }
    }
}

// The status of a verdict.
fn status_of(verdict: Verdict) -> Status
    ensures { result ≡ verdict_status verdict }
{
    match verdict {
        Verdict::Valid { .. } => Status::Done,
        Verdict::Invalid { .. } => Status::Invalid,
    }
}
