// How many executions sessions ask for.
ghost use Rattle.std.specs.Prelude.{◌≡◌, ◌≤◌, filter, length, sum_by};
ghost use Rattle.dcr_journal.specs.Run.{numbered};
ghost use Rattle.dcr_schedule.specs.Executions.{exec_calls, is_exec};

use dcr_journal::{Call, CallList};

/// How many executions the sessions ask for, which have at most 200,000 calls.
pub(crate) fn count_executions(sessions: &[CallList]) -> u32
    requires { sum_by (λ calls. length calls) sessions.now ≤ 200000 }
    ensures counted { result ≡ length (numbered 0 (exec_calls sessions.now)) }
    ensures few { result ≤ 200000 }
{
    let mut count = 0;
    for session in 0..sessions.len() {
        count += count_of(&sessions[session]);
    }
    count
}

// How many of these calls are executions.
fn count_of(calls: &CallList) -> u32
    requires { length calls.now ≤ 200000 }
    ensures { result ≡ length (filter is_exec calls.now) }
{
    let mut count = 0;
    for place in 0..calls.len() {
        if is_exec(calls.get(place).unwrap()) {
            count += 1;
        }
    }
    count
}

// Whether the call is an execution.
fn is_exec(call: &Call) -> bool
    ensures { result ≡ is_exec call.now }
{
    match call {
        Call::Exec(..) => true,
        _ => false,
    }
}
