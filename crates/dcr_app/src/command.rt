ghost use Rattle.std.specs.Prelude.{◌≡◌, map, string_bytes, Some, None, MatchOption};
ghost use Rattle.dcr_app.specs.Command.{alone, command_in, executed, number_alone, number_behind, number_in, part_with, run_with, serve_with, store_in, workers_in};

use crate::word::SiteWord;
use dcr_text::{decimal_is_one_number, read_decimal};

/// What the program is asked for.
#[derive(Drop)]
pub enum Command<'w> {
    /// Run the case that the number spells, by one worker, and write a line about the run.
    Load { number: u32 },
    /// Answer the input.
    Read { reading: Reading<'w> },
}

/// How an input is answered.
#[derive(Drop)]
pub enum Reading<'w> {
    /// Execute a case in this way, and write its report; its executions are kept in a store, or not.
    Execute { way: Way, store: bool },
    /// Check a report.
    Replay,
    /// Run the executions of a case at sites that talk by messages, over the network of a number, and write the report.
    Nodes { number: u32 },
    /// Judge each trace of an event log by the whole graph of the case before it.
    Conform,
    /// Run several cases one after the other, each from where the one before it ended, and write their reports.
    Adapt,
    /// Write the part that the site which this word names has of a case.
    Part { site: SiteWord<'w> },
}

/// How the sessions of a case are executed.
#[derive(Clone, Copy)]
pub enum Way {
    /// Those that the case has, by so many workers, 1 to 64.
    Run { workers: u32 },
    /// So many, 1 to 1,024, over the links of the door, by so many workers, 1 to 64.
    Serve { sessions: u32, workers: u32 },
}

// The most workers, and the most sessions that are served.
const MAX_WORKERS: u32 = 64;

const MAX_SESSIONS: u32 = 1_024;

/// The command that the words spell. None exactly where they spell none.
pub(crate) fn command_of(words: &[String]) -> Option<Command<'_>>
    ensures { result ≡ command_in words.now }
{
    let (word, rest) = words.split_first()?;
    match word.as_str() {
        "run" => run_of(rest),
        "serve" => serve_of(rest),
        "replay" => alone(Reading::Replay, rest),
        "load" => {
            let number = number_alone(rest)?;
            Some(Command::Load { number })
        }
        "nodes" => {
            let number = number_alone(rest)?;
            Some(Command::Read {
                reading: Reading::Nodes { number },
            })
        }
        "conform" => alone(Reading::Conform, rest),
        "adapt" => alone(Reading::Adapt, rest),
        "part" => part_of(rest),
        _ => None,
    }
}

// What nothing may stand behind.
fn alone<'w>(reading: Reading<'w>, words: &'w [String]) -> Option<Command<'w>>
    ensures { result ≡ alone reading.entry (map string_bytes words.now) }
{
    if words.is_empty() {
        Some(Command::Read { reading })
    } else {
        None
    }
}

// The part of the site that the word behind `part` names, where nothing else stands there.
fn part_of(words: &[String]) -> Option<Command<'_>>
    ensures { result ≡ part_with (map string_bytes words.now) }
{
    match words {
        [site] => {
            let site = SiteWord::new(site.as_str());
            Some(Command::Read {
                reading: Reading::Part { site },
            })
        }
        _ => None,
    }
}

// The number of a case that is made, or of a network, where nothing else stands behind the word.
fn number_alone(words: &[String]) -> Option<u32>
    ensures { result ≡ number_alone (map string_bytes words.now) }
{
    match words {
        [number] => number_of(number.as_str(), 0, u32::MAX),
        _ => None,
    }
}

// The run that the words behind `run` ask for.
fn run_of(words: &[String]) -> Option<Command<'_>>
    ensures { result ≡ run_with (map string_bytes words.now) }
{
    let (workers, rest) = workers_of(words)?;
    executed(Way::Run { workers }, store_of(rest))
}

// How many workers are asked for, and the words behind that. Without the word for it there is one.
fn workers_of(words: &[String]) -> Option<(u32, &[String])>
    ensures { MatchOption result (workers_in (map string_bytes words.now) ≡ None)
        (λ workers. workers_in (map string_bytes words.now) ≡ Some (workers.0, map string_bytes workers.1.now)) }
{
    match words.first() {
        Some(word) if word.as_str() == "--workers" => number_behind(
            words,
            "--workers",
            MAX_WORKERS,
        ),
        _ => Some((1, words)),
    }
}

// The serving that the words behind `serve` ask for.
fn serve_of(words: &[String]) -> Option<Command<'_>>
    ensures { result ≡ serve_with (map string_bytes words.now) }
{
    let (sessions, rest) = number_behind(words, "--sessions", MAX_SESSIONS)?;
    let (workers, rest) = number_behind(rest, "--workers", MAX_WORKERS)?;
    executed(Way::Serve { sessions, workers }, store_of(rest))
}

// The number from 1 on that stands behind this word, and the words behind that.
fn number_behind<'a>(words: &'a [String], name: &str, most: u32) -> Option<(u32, &'a [String])>
    ensures { MatchOption result (number_behind name.now most (map string_bytes words.now) ≡ None)
        (λ number. number_behind name.now most (map string_bytes words.now) ≡ Some (number.0, map string_bytes number.1.now)) }
{
    match words {
        [word, number, rest @ ..] => {
            if word.as_str() != name {
                return None;
            }
            let number = number_of(number.as_str(), 1, most)?;
            Some((number, rest))
        }
        _ => None,
    }
}

// Whether a store is asked for. None where other words than that one stand there.
fn store_of(words: &[String]) -> Option<bool>
    ensures { result ≡ store_in (map string_bytes words.now) }
{
    match words {
        [] => Some(false),
        [word] => {
            if word.as_str() != "--store" {
                return None;
            }
            Some(true)
        }
        _ => None,
    }
}

// The execution of a case in a way, where the words behind that spell whether there is a store.
fn executed<'w>(way: Way, store: Option<bool>) -> Option<Command<'w>>
    ensures { result ≡ executed way store }
{
    let store = store?;
    Some(Command::Read {
        reading: Reading::Execute { way, store },
    })
}

// The number from the one to the other that a word spells in decimal without leading zeros.
fn number_of(word: &str, least: u32, most: u32) -> Option<u32>
    ensures { result ≡ number_in least most word.now }
{
    // Two numbers have not one decimal form.
    decimal_is_one_number();
    match read_decimal(word.as_bytes()) {
        Some(n) if n >= least as u64 && n <= most as u64 => Some(n as u32),
        _ => None,
    }
}
