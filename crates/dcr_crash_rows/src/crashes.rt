// A cluster that is stopped within each call of its disk, and opened again from what a crash there may leave.
ghost use Rattle.dcr_json.specs.Built.{IsCase};

use crate::tapes::{EXECUTIONS, disk_of, kept_on, left_by};
use dcr_cluster_rows::{HOSPITAL, HOSPITAL_STEPS, Step, case_of, expect};
use dcr_fakes::MemDisk;
use dcr_json::Case;
use std::alloc::Global;
use std::sync::Wait;
use std::test::Fail;

// What a crash makes of each write: all is there, nothing is, and each of four ways in turn.
const CHOICES: [u64; 3] = [0, 0x5555_5555_5555_5555, 0xE4E4_E4E4_E4E4_E4E4];

// How many calls of the disk the making of a tape takes, and how many an execution takes.
const MAKING: u32 = 4;

const EACH: u32 = 4;

// The steps of the row where the execution of this number, from 0, can't be kept.
fn stopped_steps(alloc: Global, execution: usize) -> Result<Vec<Step<'static>>, Fail> {
    const FAULTS: [(usize, &str, &str); 5] = [
        (0, "0 0 0 exec doctor pm faulted", "stopped 0"),
        (2, "2 0 2 exec doctor s faulted", "stopped 2"),
        (3, "3 0 3 exec nurse dt faulted", "stopped 3"),
        (6, "6 0 6 exec doctor s faulted", "stopped 6"),
        (7, "7 0 7 exec nurse gm faulted", "stopped 7"),
    ];
    let (step, faulted, stopped) = *FAULTS.get(execution).ok_or("an execution")?;
    let mut steps = Vec::new(alloc);
    for (number, (session, call, told)) in HOSPITAL_STEPS.iter().enumerate() {
        let told = if number < step {
            *told
        } else if number == step {
            faulted
        } else {
            stopped
        };
        steps.push((*session, *call, told))?;
    }
    Ok(steps)
}

// That a crash within this call of the disk leaves as many executions as one of these.
fn expect_left<R: Wait>(
    rt: &R,
    alloc: Global,
    case: &Case,
    disk: &MemDisk,
    call: u32,
    least: usize,
    most: usize,
) -> Result<(), Fail>
    requires { IsCase case.now }
{
    for choice in CHOICES {
        let image = disk.image(alloc, call, choice)?;
        let count = gone_on(rt, alloc, case, &image)?;
        if count != least && count != most {
            let told = format!(in alloc; "call {call}, {choice:x}: {count} executions")?;
            return Err(Fail::new(told));
        }
    }
    Ok(())
}

// A cluster goes on from an image by one execution. The executions on it are the first ones of the row. How many there are.
fn gone_on<R: Wait>(rt: &R, alloc: Global, case: &Case, image: &[u8]) -> Result<usize, Fail>
    requires { IsCase case.now }
{
    let old = kept_on(alloc, case, image)?;
    let count = old.len();
    let front = EXECUTIONS.get(..count).ok_or("at most five")?;
    expect(old.as_slice() == front, "the first executions")?;
    let steps = [(0, "exec doctor pm", "0 0 0 exec doctor pm done")];
    let disk = left_by(rt, alloc, case, disk_of(alloc, image, &[])?, &steps)?;
    let again = kept_on(alloc, case, disk.bytes())?;
    expect(again.len() == count + 1, "one execution more")?;
    Ok(count)
}

#[test]
fn a_cluster_is_stopped_within_each_call_of_its_disk(rt: HostRuntime) -> Result<(), Fail> {
    let alloc = rt.alloc();
    let case = case_of(alloc, HOSPITAL)?;
    for call in MAKING + 1..=MAKING + 5 * EACH {
        let execution = ((call - MAKING - 1) / EACH) as usize;
        let within = (call - MAKING - 1) % EACH;
        // The gate of the execution is written by the third call.
        let most = if within < 2 { execution } else { execution + 1 };
        let steps = stopped_steps(alloc, execution)?;
        let disk = left_by(&rt, alloc, &case, disk_of(alloc, &[], &[call])?, &steps)?;
        expect(disk.calls().len() == call as usize, "no further call")?;
        expect_left(&rt, alloc, &case, &disk, call, execution, most)?;
    }
    Ok(())
}

#[test]
fn a_crash_within_each_call_leaves_what_was_answered(rt: HostRuntime) -> Result<(), Fail> {
    let alloc = rt.alloc();
    let case = case_of(alloc, HOSPITAL)?;
    let empty = disk_of(alloc, &[], &[])?;
    let disk = left_by(&rt, alloc, &case, empty, &HOSPITAL_STEPS)?;
    for call in MAKING + 1..=MAKING + 5 * EACH {
        let answered = ((call - MAKING - 1) / EACH) as usize;
        expect_left(&rt, alloc, &case, &disk, call, answered, answered + 1)?;
    }
    Ok(())
}
