ghost use Rattle.std.specs.Prelude.{◌≡◌, ◌<◌, ◌≤◌, ◌⊎◌, ◌^◌, [], length, map, slice_index_or, IfOk, IfSome, Ok, Err, option_map};
ghost use Rattle.std.specs.Borrow.{Bor};
ghost use Rattle.std.specs.List.{All, AllZip};
ghost use Rattle.dcr_json.specs.Built.{case_of, IsCase};
ghost use Rattle.dcr_json.specs.Case.{case_in};
ghost use Rattle.dcr_json.specs.declared.case.Case.{Case};
ghost use Rattle.dcr_roles.specs.Accepted.{accepted_in};
ghost use Rattle.dcr_roles.specs.Laws.{AcceptsCase};
ghost use Rattle.dcr_adapt.specs.Stages.{Says, line_texts, of_stage, stage_in, stages_from, stages_in};

use crate::StageStop;
use crate::dropping::keep_atoms;
use crate::lines::{count_lines, cut};
use dcr_json::{Case, CaseStop};
use dcr_roles::{AcceptStop, Accepted, PolicyStop, read_accepted};
use std::alloc::Global;

// The most stages.
const MAX_STAGES: u32 = 16;

/// The cases that a text spells, one in each line, or the first refusal. Lines are the pieces between line feeds, and what
/// stands behind the last of these, where it is anything. Each case is accepted: its policy denies no call of its sessions.
///
/// `Cases` comes exactly where the lines are not 1 to 16. Else the stages are tried in order, each by itself and then
/// against the one before it: `Stage` comes where its line is refused as a case, `Policy` where it is a case whose policy is
/// refused, and `Dropped` where an atom of the case before has a name that none of its atoms has. `NoMemory` may come in
/// the place of any answer but `Cases` and a first line that is too long, which take none.
#[tactic(auto, unfolding(crate::specs::Stages::stages_in))]
pub fn read_stages(alloc: Global, bytes: &[u8]) -> Result<Vec<Case>, StageStop>
    requires { length bytes.now < 2 ^ 32 }
    ensures says { Says (λ cases. map case_of cases.items) result (stages_in bytes.now) }
    ensures count { (length (line_texts bytes.now) < 1) ⊎ (16 < length (line_texts bytes.now))
        → result ≡ Err (StageStop.Cases (length (line_texts bytes.now))) }
    ensures too_long { 16777216 < length (slice_index_or (line_texts bytes.now) 0 []) → length (line_texts bytes.now) ≤ 16
        → result ≡ Err (StageStop.Stage 0 CaseStop.TooLong) }
    ensures lines { IfOk result (λ cases.
        AllZip (λ text (case : Case). case_in text ≡ Ok (case_of case)) (line_texts bytes.now) cases.items) }
    ensures accepted { IfOk result (λ cases.
        AllZip (λ text (case : Case). AcceptsCase text (case_of case)) (line_texts bytes.now) cases.items) }
    ensures fits { IfOk result (λ cases. All IsCase cases.items) }
{
    let count = count_lines(bytes);
    if count < 1 || count > MAX_STAGES {
        return Err(StageStop::Cases { count });
    }
    let cases = read_each(alloc, bytes, count)?;
    Ok(cases)
}

// The case of each line, of which there are so many. Those that were read are kept while the next is.
fn read_each(alloc: Global, bytes: &[u8], count: u32) -> Result<Vec<Case>, StageStop>
    requires { count ≡ length (line_texts bytes.now) }
    ensures says { Says (λ cases. map case_of cases.items) result (stages_from (line_texts bytes.now)) }
    ensures too_long { 16777216 < length (slice_index_or (line_texts bytes.now) 0 [])
        → result ≡ Err (StageStop.Stage 0 CaseStop.TooLong) }
    ensures lines { IfOk result (λ cases.
        AllZip (λ text (case : Case). case_in text ≡ Ok (case_of case)) (line_texts bytes.now) cases.items) }
    ensures accepted { IfOk result (λ cases.
        AllZip (λ text (case : Case). AcceptsCase text (case_of case)) (line_texts bytes.now) cases.items) }
    ensures fits { IfOk result (λ cases. All IsCase cases.items) }
{
    let mut cases = Vec::new(alloc);
    let mut rest = bytes;
    for i in 0..count {
        let (line, behind) = cut(rest);
        let case = read_stage(alloc, i, line, cases.last())?;
        cases.push(case)?;
        rest = behind;
    }
    Ok(cases)
}

// The case of one line, held against the case of the line before it, where there is one.
#[tactic(auto, unfolding(crate::specs::Stages::stage_in))]
fn read_stage(alloc: Global, i: u32, line: &[u8], before: Option<&Case>) -> Result<Case, StageStop>
    requires { IfSome before (λ (was : Bor Case). IsCase was.now) }
    ensures says { Says case_of result
        (stage_in i (option_map (λ (was : Bor Case). case_of was.now) before.entry) line.now) }
    ensures too_long { 16777216 < length line.now → result ≡ Err (StageStop.Stage i CaseStop.TooLong) }
    ensures spells { IfOk result (λ case. AcceptsCase line.now (case_of case)) }
    ensures fits { IfOk result IsCase }
{
    let case = read_line(alloc, i, line)?;
    keep_atoms(alloc, i, before, &case)?;
    Ok(case)
}

// The case of a line by itself. Its policy has been read then, and is let go.
fn read_line(alloc: Global, i: u32, line: &[u8]) -> Result<Case, StageStop>
    ensures says { Says case_of result (of_stage i (accepted_in line.now)) }
    ensures too_long { 16777216 < length line.now → result ≡ Err (StageStop.Stage i CaseStop.TooLong) }
    ensures spells { IfOk result (λ case. AcceptsCase line.now (case_of case)) }
    ensures fits { IfOk result IsCase }
{
    match read_accepted(alloc, line) {
        Ok(
            Accepted {
                case,
                policy: _policy,
            },
        ) => Ok(case),
        Err(
            AcceptStop::Case {
                stop: CaseStop::NoMemory,
            },
        ) => Err(StageStop::NoMemory),
        Err(AcceptStop::Case { stop }) => Err(StageStop::Stage { i, stop }),
        Err(
            AcceptStop::Policy {
                stop: PolicyStop::NoMemory,
            },
        ) => Err(StageStop::NoMemory),
        Err(AcceptStop::Policy { stop }) => Err(StageStop::Policy { i, stop }),
    }
}
