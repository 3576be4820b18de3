ghost use Rattle.std.specs.Prelude.{◌≡◌, ◌++◌, codes, decimal, IfOk, OnOk};
ghost use Rattle.dcr_roles.specs.Accepted.{HadMemory};
ghost use Rattle.dcr_app.specs.Refusal.{case_line, limit_text, part_text, policy_line, policy_text, refusal_line};

use crate::lines::{
    Line, and, and_name, and_number, line, named, numbered, numbered_twice, worded,
};
use dcr_graph::Name;
use dcr_json::{CaseStop, LimitKind, Part};
use dcr_roles::{AcceptStop, PolicyPart, PolicyStop};
use dcr_set::NoMemory;
use std::alloc::Global;

/// The line that tells why bytes are not accepted. `NoMemory` where that is want of memory, and where memory could not be
/// had for the line itself.
pub(crate) fn line_of(alloc: Global, stop: &AcceptStop) -> Line
    ensures line { IfOk result (λ line. line.items ≡ refusal_line stop.now) }
    ensures had { OnOk result (HadMemory stop.now) }
{
    match stop {
        AcceptStop::Case { stop } => {
            if let CaseStop::NoMemory = stop {
                return Err(NoMemory);
            }
            case_line(alloc, stop)
        }
        AcceptStop::Policy { stop } => {
            if let PolicyStop::NoMemory = stop {
                return Err(NoMemory);
            }
            policy_line(alloc, stop)
        }
    }
}

/// The same where the bytes are no case; nothing for want of memory.
pub(crate) fn case_line(alloc: Global, stop: &CaseStop) -> Line
    ensures { IfOk result (λ line. line.items ≡ case_line stop.now) }
{
    match stop {
        CaseStop::TooLong => line(alloc, b"refused 1 too-long\n"),
        CaseStop::NotJson => line(alloc, b"refused 2 not-json\n"),
        CaseStop::Shape { part, index } => {
            worded(alloc, b"refused 3 shape ", part_text(*part), *index)
        }
        CaseStop::Limit { kind, count } => {
            worded(alloc, b"refused 4 limit ", limit_text(*kind), *count)
        }
        CaseStop::EventName { i } => numbered(alloc, b"refused 5 event-name ", *i),
        CaseStop::Parent { i } => numbered(alloc, b"refused 6 parent ", *i),
        CaseStop::MarkOnNest { i } => numbered(alloc, b"refused 7 mark-on-nest ", *i),
        CaseStop::RelationEnd { i } => numbered(alloc, b"refused 8 relation-end ", *i),
        CaseStop::Clash { a, b } => clash(alloc, a, b),
        CaseStop::SiteName { i } => numbered(alloc, b"refused 10 site-name ", *i),
        CaseStop::Owned { i, j } => numbered_twice(alloc, b"refused 10 owned ", *i, *j),
        CaseStop::Uncovered { a } => named(alloc, b"refused 11 uncovered ", a),
        CaseStop::CallLine { k, j } => numbered_twice(alloc, b"refused 12 call-line ", *k, *j),
        CaseStop::NoMemory => line(alloc, b""),
    }
}

/// The same where the policy of a case is refused.
pub(crate) fn policy_line(alloc: Global, stop: &PolicyStop) -> Line
    ensures { IfOk result (λ line. line.items ≡ policy_line stop.now) }
{
    match stop {
        PolicyStop::Policy { part, index } => {
            worded(alloc, b"refused 16 policy ", policy_text(*part), *index)
        }
        PolicyStop::Denied { k, j, role } => denied(alloc, *k, *j, role),
        PolicyStop::NoMemory => line(alloc, b""),
    }
}

// A call that is denied, and the role that it lacks.
fn denied(alloc: Global, k: u32, j: u32, role: &Name) -> Line
    ensures { IfOk result (λ line. line.items ≡ codes "refused 17 denied " ++ decimal k ++ codes " " ++ decimal j ++ codes " " ++ role.now ++ codes "\n") }
{
    let line = and(and_number(line(alloc, b"refused 17 denied "), k), b" ");
    let line = and(and_number(line, j), b" ");
    and(and_name(line, role), b"\n")
}

// The names of a pair that is both included and excluded.
fn clash(alloc: Global, a: &Name, b: &Name) -> Line
    ensures { IfOk result (λ line. line.items ≡ codes "refused 9 clash " ++ a.now ++ codes " " ++ b.now ++ codes "\n") }
{
    let line = and(and_name(line(alloc, b"refused 9 clash "), a), b" ");
    and(and_name(line, b), b"\n")
}

// The word of a part of a file.
fn part_text(part: Part) -> &'static [u8]
    ensures { result.now ≡ part_text part }
{
    match part {
        Part::Top => b"top",
        Part::Graph => b"graph",
        Part::Event => b"event",
        Part::Relation => b"relation",
        Part::Cover => b"cover",
        Part::Site => b"site",
        Part::Sessions => b"sessions",
        Part::Session => b"session",
    }
}

// The word of a part of a policy.
fn policy_text(part: PolicyPart) -> &'static [u8]
    ensures { result.now ≡ policy_text part }
{
    match part {
        PolicyPart::Event => b"event",
        PolicyPart::Users => b"users",
        PolicyPart::User => b"user",
        PolicyPart::By => b"by",
    }
}

// The word of what a limit counts.
fn limit_text(kind: LimitKind) -> &'static [u8]
    ensures { result.now ≡ limit_text kind }
{
    match kind {
        LimitKind::Nodes => b"nodes",
        LimitKind::Atoms => b"atoms",
        LimitKind::Relations => b"relations",
        LimitKind::Label => b"label",
        LimitKind::Sites => b"sites",
        LimitKind::Sessions => b"sessions",
        LimitKind::Calls => b"calls",
    }
}
