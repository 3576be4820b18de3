ghost use Rattle.std.specs.Prelude.{◌≡◌, ◌≤◌, length, Some};
ghost use Rattle.dcr_base.specs.Count.{Rose};
ghost use Rattle.dcr_app.specs.Answers.{Answers, EndsAs, IsConverse, IsHeadline, IsTask, IsTaskOf, Says, is_stored};
ghost use Rattle.dcr_app.specs.Command.{HasNumbers, command_in};
ghost use Rattle.dcr_app.specs.Outside.{CountsWhere, IsUnread, LeavesInput, limit_in, most_bytes};
ghost use Rattle.dcr_app.specs.Stored.{LeavesDisk};
ghost use Rattle.dcr_app.specs.Telling.{LeavesDoor};
ghost use Rattle.dcr_app.specs.declared.command.Command.TheVariants.{Read};

use crate::adapt::adapt;
use crate::answer::Answer;
use crate::apart::apart;
use crate::command::{Command, Reading, Way, command_of};
use crate::conform::conform;
use crate::load::load;
use crate::part::part;
use crate::replay::replay;
use crate::run::execute;
use crate::say::{refuse, say};
use dcr_base::{Disk, Door, Gate, Link, ReadStop, Sink, Source, Status, read_all};
use dcr_engine::ordered_is_told;
use dcr_journal::Closed;
use dcr_node::World;
use dcr_replay::a_text_has_one_verdict;
use dcr_roles::{Accepted, read_accepted, when_each_refusal_comes};
use dcr_serving::LinkEnd;
use dcr_tape::{no_cause, one_list};
use std::alloc::Global;
use std::sync::Wait;
use std::thread::Threads;

// The most bytes of a report, and of any other input.
const MOST_REPORT: usize = 268_435_456;

const MOST_FILE: usize = 16_777_216;

/// How the program ended, the run where there was one, the door, the disk, and the sessions over links.
#[derive(Drop)]
pub struct End<B: Door, D> {
    /// How the program ended.
    pub status: Status,
    /// The run of the case, where `run`, `serve` or `nodes` read one, or `load` made one, and it was executed, and of the last case that
    /// `adapt` ran: with `Done`, `DiskFault`, `Full` and `DoorFault`, and with `WriteFault` where its report or line was to be written. With
    /// `NoMemory` it may be there. With `DiskFault` it is missing where the disk failed before the first call.
    pub closed: Option<Closed>,
    /// The door that was handed in.
    pub door: B,
    /// The disk that was handed in.
    pub disk: D,
    /// How the session over each link has ended that the door gave, in order. There are none where no run is told, and
    /// none but with `serve`.
    pub ends: Vec<LinkEnd<B::Link>>,
    /// All nodes after the run, and every message that was sent, where `nodes` told a run. It is there exactly where
    /// `closed` is, and with no other command.
    pub world: Option<World>,
}

/// The program. `run` reads a case file to its end, makes its sessions' calls by so many workers on sites that stand behind
/// locks of their own and decide from their own marks, and writes the report of that run. `serve` reads a case file too, and
/// in the place of its sessions serves so many others, each over the next link that the door gives, by so many workers: it
/// answers their calls line by line, those that the policy denies without making them, until each session has had its link or
/// the door is shut or has failed, and then writes the report. A run that either of them tells is the headline's (`Headline` of
/// `specs/Headline.antt`, by the clause `headline`). With `--store` both go on from the executions that the disk stands for,
/// which is made a tape of the case where it is empty, and each execution is on the disk before it is answered. `replay` reads
/// a report to its end, checks it by the plain engine of the whole graph, and writes one line: that it is the report of a legal
/// history, or which line is the first wrong one. `load` reads nothing: it makes the case of its number, runs it by one worker,
/// and writes one line about that run. `nodes` reads a case file as `run` does, runs its executions, and no other call, at
/// sites that talk by messages alone, over a network that loses, repeats and reorders them as its number picks, and writes the
/// report, which is the same for every number. `conform` reads a case file, which is its first line, and an event log behind
/// it, judges each trace of the log by the plain engine of the whole graph, and writes one line for each in order of first
/// appearance, and then how many there are. `adapt` reads several cases, one in each line, runs one after the other, each from
/// where the one before it ended, and writes the report of each. `part` reads a case file, and writes the part that the site of a name
/// has of it (`dcr_part`). Other words are answered by the line `usage`. A file that is no
/// case, or whose policy fails or denies a call of its sessions, and an input of more than 16,777,216 bytes, or a report of more
/// than 268,435,456, is refused by one line that tells why, and so is a log with a bad record, a case that leaves out an event
/// of the one before, a name that no site of the case has, and a disk that isn't empty and isn't a tape of the case that can be gone on
/// from.
///
/// `answers` is what comes of each command, and `says` what each status says. `ends` is what the program ends with where nothing
/// fails: `Done`, or what the input or the tape is refused with, or `NoMemory`, which may come in the place of any other answer
/// but that of `usage`; nothing was written then, or a front of what was to be written and not all of it. `ReadFault` comes
/// exactly where a read failed (`input`), and then nothing was written; `WriteFault` exactly where a write of the output failed
/// (`output`), and then a front of what was to be written was, and not all of it. `DiskFault` comes where a call of the disk
/// failed (`disk`): with a run, which the failed execution ends and whose report was written; or before its first call, with
/// nothing written. `Full` comes only in `serve`, where the history has 200,000 entries and nothing else failed, and `DoorFault`
/// only there, where the door failed (`door`); the report was written. What is said of a run that is told holds with every status. Where
/// none is told, the disk stands for what it stood for, and the door was not asked.
///
/// It waits for its workers, they for each other's locks, and in `serve` for the door and for what is asked over its links.
pub fn dcr<
    I: Source,
    O: Sink,
    B: Door<Link: Link<Rest: Send> + Send> + Send,
    D: Disk + Send,
    G: Gate + Drop + Sync,
    R: Threads + Wait + Sync,
>(
    rt: &R,
    alloc: Global,
    words: &[String],
    input: &mut I,
    output: &mut O,
    door: B,
    disk: D,
    gate: G,
) -> End<B, D>
    ensures headline { IsHeadline D.view D.faults B.tells
        (command_in words.now) door disk (I.gives input.old).bytes (I.has_ended input.new) (O.takes output.old) (O.takes output.new) result }
    ensures answers { Answers D.view D.faults B.tells
        (command_in words.now) door disk (I.gives input.old).bytes (I.has_ended input.new) (O.takes output.old) (O.takes output.new) result }
    ensures says { Says (command_in words.now) (D.view disk) (D.view result.disk) (I.gives input.old).bytes (O.takes output.old) (O.takes output.new) result.closed result.status }
    ensures converse { IsConverse (command_in words.now) (I.gives input.old).bytes result.closed }
    ensures ends { EndsAs (command_in words.now) (D.view disk) (I.gives input.old).bytes (Rose (I.gives input.old).faults (I.gives input.new).faults)
        (Rose (O.takes output.old).faults (O.takes output.new).faults) (Rose (D.faults disk) (D.faults result.disk)) (Rose (B.tells.faults door) (B.tells.faults result.door)) result.status }
    ensures input { LeavesInput (limit_in (command_in words.now)) (I.gives input.old) (I.gives input.new)
        (I.has_ended input.new) result.status }
    ensures output { CountsWhere (result.status ≡ Status.WriteFault) (O.takes output.old).faults (O.takes output.new).faults }
    ensures disk { LeavesDisk (is_stored (command_in words.now)) D.view D.faults (I.gives input.old).bytes disk result.disk result.status result.closed }
    ensures door { LeavesDoor B.tells
        (command_in words.now) result.closed door result.door result.ends.items result.status }
{
    // What the bytes of a case say, which run is the told one, what a content stands for, and what a verdict means.
    when_each_refusal_comes();
    ordered_is_told();
    one_list();
    no_cause();
    a_text_has_one_verdict();
    answer(rt, alloc, words, input, output, door, disk, gate)
}

// What is left to do once the words and the input were read.
#[derive(Drop)]
pub(crate) enum Task {
    // Nothing: the command is answered.
    Answered(Answer),
    // The case that the input spells is to be executed in this way, with a store or without one.
    Execute(Way, bool, Accepted),
}

// Answers the words of a command.
fn answer<
    I: Source,
    O: Sink,
    B: Door<Link: Link<Rest: Send> + Send> + Send,
    D: Disk + Send,
    G: Gate + Drop + Sync,
    R: Threads + Wait + Sync,
>(
    rt: &R,
    alloc: Global,
    words: &[String],
    input: &mut I,
    output: &mut O,
    door: B,
    disk: D,
    gate: G,
) -> End<B, D>
    ensures answers { Answers D.view D.faults B.tells
        (command_in words.now) door disk (I.gives input.old).bytes (I.has_ended input.new) (O.takes output.old) (O.takes output.new) result }
    ensures input { LeavesInput (limit_in (command_in words.now)) (I.gives input.old) (I.gives input.new)
        (I.has_ended input.new) result.status }
    ensures disk { LeavesDisk (is_stored (command_in words.now)) D.view D.faults (I.gives input.old).bytes disk result.disk result.status result.closed }
    ensures door { LeavesDoor B.tells
        (command_in words.now) result.closed door result.door result.ends.items result.status }
{
    let (task, disk) = task_of(rt, alloc, words, input, output, disk, &gate);
    match task {
        Task::Answered(answer) => End {
            status: answer.0,
            closed: answer.1,
            door,
            disk,
            ends: Vec::new(alloc),
            world: answer.2,
        },
        Task::Execute(way, store, accepted) => execute(
            rt, alloc, way, store, &accepted, output, door, disk, gate,
        ),
    }
}

// Reads the words, and the input where they ask for that, and answers what needs neither the door nor a store.
fn task_of<I: Source, O: Sink, D: Disk + Send, G: Gate + Drop + Sync, R: Threads + Wait + Sync>(
    rt: &R,
    alloc: Global,
    words: &[String],
    input: &mut I,
    output: &mut O,
    disk: D,
    gate: &G,
) -> (Task, D)
    ensures task { IsTask (command_in words.now) (I.gives input.old) (I.gives input.new)
        (I.has_ended input.new) (O.takes output.old) (O.takes output.new) result.0 }
    ensures disk { result.1 ≡ disk }
{
    match command_of(words) {
        None => {
            let status = say(output, b"usage\n", Status::Usage);
            (Task::Answered(Answer(status, None, None)), disk)
        }
        Some(Command::Load { number }) => {
            let (answer, disk) = load(rt, alloc, number, output, disk, gate);
            (Task::Answered(answer), disk)
        }
        Some(Command::Read { reading }) => {
            read_input(rt, alloc, &reading, input, output, disk, gate)
        }
    }
}

// Reads the input to its end, and goes on with its bytes.
fn read_input<I: Source, O: Sink, D: Disk + Send, G: Gate + Drop + Sync, R: Threads + Wait + Sync>(
    rt: &R,
    alloc: Global,
    reading: &Reading<'_>,
    input: &mut I,
    output: &mut O,
    disk: D,
    gate: &G,
) -> (Task, D)
    requires numbers { HasNumbers (Read reading.now) }
    ensures task { IsTask (Some (Read reading.now)) (I.gives input.old) (I.gives input.new)
        (I.has_ended input.new) (O.takes output.old) (O.takes output.new) result.0 }
    ensures disk { result.1 ≡ disk }
{
    match read_all(alloc, input, limit_of(reading)) {
        Ok(bytes) => task_of_bytes(rt, alloc, reading, &bytes, output, disk, gate),
        Err(stop) => {
            let status = unread(stop, output);
            (Task::Answered(Answer(status, None, None)), disk)
        }
    }
}

// Tells why an input was not read to its end. Takes no memory.
fn unread<O: Sink>(stop: ReadStop, output: &mut O) -> Status
    ensures { IsUnread stop result (O.takes output.old) (O.takes output.new) }
{
    match stop {
        ReadStop::TooLong => say(output, b"refused 1 too-long\n", Status::Refused),
        ReadStop::ReadFault => Status::ReadFault,
        ReadStop::NoMemory => Status::NoMemory,
    }
}

// The most bytes of an input.
fn limit_of(reading: &Reading<'_>) -> usize
    ensures { result ≡ most_bytes reading.now }
{
    match reading {
        Reading::Replay => MOST_REPORT,
        _ => MOST_FILE,
    }
}

// Answers the bytes of an input, but those of a case that is to be executed.
fn task_of_bytes<O: Sink, D: Disk + Send, G: Gate + Drop + Sync, R: Threads + Wait + Sync>(
    rt: &R,
    alloc: Global,
    reading: &Reading<'_>,
    bytes: &[u8],
    output: &mut O,
    disk: D,
    gate: &G,
) -> (Task, D)
    requires numbers { HasNumbers (Read reading.now) }
    requires few { length bytes.now ≤ most_bytes reading.now }
    ensures task { IsTaskOf reading.now bytes.now (O.takes output.old) (O.takes output.new) result.0 }
    ensures disk { result.1 ≡ disk }
{
    match reading {
        Reading::Execute { way, store } => match read_accepted(alloc, bytes) {
            Ok(accepted) => (Task::Execute(*way, *store, accepted), disk),
            Err(stop) => (Task::Answered(refuse(alloc, output, &stop)), disk),
        },
        Reading::Replay => (Task::Answered(replay(alloc, bytes, output)), disk),
        Reading::Nodes { number } => (
            Task::Answered(apart(rt, alloc, *number, bytes, output)),
            disk,
        ),
        Reading::Conform => (Task::Answered(conform(rt, alloc, bytes, output)), disk),
        Reading::Adapt => {
            let (answer, disk) = adapt(rt, alloc, bytes, output, disk, gate);
            (Task::Answered(answer), disk)
        }
        Reading::Part { site } => (
            Task::Answered(part(alloc, site.text(), bytes, output)),
            disk,
        ),
    }
}
