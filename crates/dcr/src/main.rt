//! The program `dcr`: standard input to standard output, connections to port 7411 and from a site to port 7412, the tape and the
//! key in the current folder, and the status of the run.
#![tactic(auto)]

ghost use Rattle.std.specs.Prelude.{◌≡◌, ◌≢◌, [], IfErr, IfOk, MatchBool, drop};
ghost use Rattle.std.specs.IoError.{error_kind};
ghost use Rattle.std.specs.Process.{exit_status};
ghost use Rattle.std.specs.Vec.Iter.{into_iter_items};
ghost use Rattle.dcr_base.specs.Status.{code_of};
ghost use Rattle.dcr.specs.Exit.{Exits, IsSite, LeavesUnused, Serves, outside};
ghost use Rattle.dcr.specs.declared.Left.TheVariants.{Unbegun};

mod key_file;
mod telling;
mod telling_porter;

use crate::key_file::{KeyFile, key_file};
use crate::telling::{TellingDoor, TellingSink, number_behind, tell_failure};
use crate::telling_porter::{TellingPorter, tell_site_failure};
use dcr_apart::{SiteEnd, site};
use dcr_app::{End, Status, dcr};
use dcr_base::{Disk, Door, FileDisk, Gate, Link, OpenGate, Sink, Source, StdSink, StdSource};
use dcr_porter::Porter;
use std::alloc::Global;
use std::fs::File;
use std::io::{Eprint, ErrorKind};
use std::process::ExitCode;
use std::sync::Wait;
use std::thread::Threads;
use std::time::Clock;
use std::{env, io};

// The port of 127.0.0.1 at which sessions are served.
const PORT: u16 = 7411;

// The port of 127.0.0.1 at which sites meet who orders their calls.
const SITES_PORT: u16 = 7412;

// A folder, from which nothing can be read and to which nothing can be written.
const NOWHERE: &str = "/";

fn main(rt: HostRuntime) -> ExitCode {
    // Where the process was started with one of its three streams closed, the folder gets its number: else the tape or a
    // connection would get it, and the report would be written there. Where the folder can't be opened nothing is begun.
    let Ok(_first) = File::open(&rt, NOWHERE) else {
        return unopened(&rt);
    };
    let Ok(_second) = File::open(&rt, NOWHERE) else {
        return unopened(&rt);
    };
    let Ok(_third) = File::open(&rt, NOWHERE) else {
        return unopened(&rt);
    };
    let mut input = StdSource::new(rt.reader());
    let mut output = TellingSink::new(&rt, StdSink::new(io::writer(&rt)));
    let Ok(files) = rt.clone() else {
        return exit_of(Status::NoMemory);
    };
    let disk = FileDisk::new(rt.alloc(), files);
    let sessions = number_behind(env::args(&rt), "--sessions");
    let workers = number_behind(env::args(&rt), "--workers");
    let key = key_file(&rt, rt.alloc(), env::args(&rt));
    let Exit { code, left: _ } = program(
        &rt,
        rt.alloc(),
        env::args(&rt),
        &mut input,
        &mut output,
        TellingDoor::new(&rt, PORT, sessions, workers),
        disk,
        OpenGate,
        key,
        TellingPorter::new(&rt, SITES_PORT),
    );
    code
}

// Ends where the folder can't be opened, with nothing read, and nothing written but a line on standard error.
fn unopened<R: Eprint>(rt: &R) -> ExitCode
    ensures { exit_status result ≡ code_of Status.DiskFault }
{
    let _said = eprintln!(rt; "dcr: the folder {NOWHERE} can't be opened");
    exit_of(Status::DiskFault)
}

// What was handed in, where nothing was begun.
#[derive(Drop)]
struct Unused<B, D, P> {
    door: B,
    disk: D,
    porter: P,
}

// What the one command has left.
#[derive(Drop)]
enum Left<B: Door, D, P: Porter> {
    // The end of a command of `dcr`, and the porter, which was not called.
    Answered(End<B, D>, P),
    // The end of a site, and the door and the disk, which were not called.
    Served(SiteEnd<P>, B, D),
    // Nothing was begun.
    Unbegun(Unused<B, D, P>),
}

// What the process ends with, and what its one command has left.
#[derive(Drop)]
struct Exit<B: Door, D, P: Porter> {
    code: ExitCode,
    left: Left<B, D, P>,
}

// The whole program: the words behind the first are the command, and the process ends with the number of the status
// that the command ends with on this input, output, door and disk, and a site on this input, output, key and porter. Words that
// are no text are no command's. Where memory fails while the words are gathered, it ends as for want of memory, with nothing read
// and nothing written, and so does a site whose key was not read, as for an input that failed.
fn program<
    I: Source,
    O: Sink,
    B: Door<Link: Link<Rest: Drop + Send> + Send> + Drop + Send,
    D: Disk + Drop + Send,
    G: Gate + Drop + Sync,
    P: Porter + Drop,
    R: Threads + Wait + Clock + Eprint + Sync,
>(
    rt: &R,
    alloc: Global,
    words: io::Result<env::Args>,
    input: &mut I,
    output: &mut O,
    door: B,
    disk: D,
    gate: G,
    key: KeyFile,
    porter: P,
) -> Exit<B, D, P>
    ensures words { IfOk words (λ args. Exits D.view D.faults B.tells P.tells
        (drop 1 (into_iter_items args)) key door disk porter
        (outside (I.gives input.old) (I.has_ended input.old) (O.takes output.old))
        (outside (I.gives input.new) (I.has_ended input.new) (O.takes output.new))
        (exit_status result.code) result.left) }
    ensures no_text { IfErr words (λ error. error_kind error ≡ ErrorKind.InvalidData → Exits D.view D.faults B.tells P.tells
        [] key door disk porter
        (outside (I.gives input.old) (I.has_ended input.old) (O.takes output.old))
        (outside (I.gives input.new) (I.has_ended input.new) (O.takes output.new))
        (exit_status result.code) result.left) }
    ensures no_words { IfErr words (λ error. error_kind error ≢ ErrorKind.InvalidData → exit_status result.code ≡ code_of Status.NoMemory) }
    ensures uncalled { IfErr words (λ error. error_kind error ≢ ErrorKind.InvalidData → LeavesUnused door disk porter
        (outside (I.gives input.old) (I.has_ended input.old) (O.takes output.old))
        (outside (I.gives input.new) (I.has_ended input.new) (O.takes output.new)) result.left) }
{
    match words {
        Ok(words) => match behind_first(alloc, words) {
            Ok(words) => answer(
                rt, alloc, &words, input, output, door, disk, gate, key, porter,
            ),
            Err(_) => unbegun(Status::NoMemory, door, disk, porter),
        },
        Err(error) if error.kind() == ErrorKind::InvalidData => {
            answer(rt, alloc, &[], input, output, door, disk, gate, key, porter)
        }
        Err(_) => unbegun(Status::NoMemory, door, disk, porter),
    }
}

// Answers the words of a command.
fn answer<
    I: Source,
    O: Sink,
    B: Door<Link: Link<Rest: Drop + Send> + Send> + Drop + Send,
    D: Disk + Drop + Send,
    G: Gate + Drop + Sync,
    P: Porter + Drop,
    R: Threads + Wait + Clock + Eprint + Sync,
>(
    rt: &R,
    alloc: Global,
    words: &[String],
    input: &mut I,
    output: &mut O,
    door: B,
    disk: D,
    gate: G,
    key: KeyFile,
    porter: P,
) -> Exit<B, D, P>
    ensures { Exits D.view D.faults B.tells P.tells
        words.now key door disk porter
        (outside (I.gives input.old) (I.has_ended input.old) (O.takes output.old))
        (outside (I.gives input.new) (I.has_ended input.new) (O.takes output.new))
        (exit_status result.code) result.left }
{
    if is_site(words) {
        return serve(
            rt,
            alloc,
            &words[1..],
            input,
            output,
            door,
            disk,
            key,
            porter,
        );
    }
    let end = dcr(rt, alloc, words, input, output, door, disk, gate);
    tell_failure(rt, end.status);
    Exit {
        code: exit_of(end.status),
        left: Left::Answered(end, porter),
    }
}

// Whether the words are those of a site.
fn is_site(words: &[String]) -> bool
    ensures { MatchBool result (IsSite words.now) (IsSite words.now → ⊥) }
{
    match words.first() {
        Some(word) => word.as_str() == "site",
        None => false,
    }
}

// Is the site that the words behind its own ask for.
fn serve<I: Source, O: Sink, B: Door, D, P: Porter + Drop, R: Wait + Clock + Eprint>(
    rt: &R,
    alloc: Global,
    words: &[String],
    input: &mut I,
    output: &mut O,
    door: B,
    disk: D,
    key: KeyFile,
    porter: P,
) -> Exit<B, D, P>
    ensures { Serves P.tells words.now key door disk porter
        (outside (I.gives input.old) (I.has_ended input.old) (O.takes output.old))
        (outside (I.gives input.new) (I.has_ended input.new) (O.takes output.new))
        (exit_status result.code) result.left }
{
    match key {
        KeyFile::Unread => unbegun(Status::ReadFault, door, disk, porter),
        KeyFile::Text(key) => {
            let end = site(rt, alloc, words, input, output, key, porter);
            tell_site_failure(rt, end.status);
            let code = exit_of(end.status);
            Exit {
                code,
                left: Left::Served(end, door, disk),
            }
        }
    }
}

// Ends with this status before anything was begun.
fn unbegun<B: Door, D, P: Porter>(status: Status, door: B, disk: D, porter: P) -> Exit<B, D, P>
    ensures code { exit_status result.code ≡ code_of status }
    ensures left { result.left ≡ Unbegun (record { door = door; disk = disk; porter = porter }) }
{
    let code = exit_of(status);
    Exit {
        code,
        left: Left::Unbegun(Unused { door, disk, porter }),
    }
}

// The process ends with the number of the status.
fn exit_of(status: Status) -> ExitCode
    ensures { exit_status result ≡ code_of status }
{
    ExitCode::from(status.code())
}

// All words but the first, in order. Each is pushed by itself, so that every growth that is refused is told.
fn behind_first(alloc: Global, words: env::Args) -> io::Result<Vec<String>>
    ensures { IfOk result (λ behind. behind.items ≡ drop 1 (into_iter_items words)) }
{
    let mut words = words;
    let mut behind = Vec::new(alloc);
    words.next();
    while let Some(word) = words.next() {
        behind.push(word)?;
    }
    Ok(behind)
}
