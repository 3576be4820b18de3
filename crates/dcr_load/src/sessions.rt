ghost use Rattle.std.specs.Prelude.{◌≡◌, ◌<◌, IfOk};
ghost use Rattle.dcr_load.specs.Each.{each_below};
ghost use Rattle.dcr_load.specs.LoadSessions.{drawn_call, call_at, session_at, load_sessions};

use crate::cover::SITES;
use crate::draw::pick;
use crate::graph::ATOMS;
use dcr_journal::{Call, CallList};
use dcr_set::{EventId, NoMemory, SiteId};
use std::alloc::Global;

// How many sessions there are.
const SESSIONS: u32 = 8;

// How many calls each of them has.
const CALLS_EACH: u32 = 2500;

// The first word that the calls are drawn by.
const FIRST_WORD: u32 = 2000;

// The calls of each session of a number.
#[tactic(auto, using(crate::proofs::EachLemmas::each))]
pub(crate) fn sessions(alloc: Global, number: u32) -> Result<Vec<CallList>, NoMemory>
    ensures { IfOk result (λ sessions. sessions.items ≡ load_sessions number) }
{
    let mut sessions = Vec::with_capacity(alloc, SESSIONS as usize)?;
    for k in 0..SESSIONS {
        sessions.push(session(alloc, number, k)?)?;
    }
    Ok(sessions)
}

// The calls of session k.
#[tactic(auto, using(crate::proofs::EachLemmas::each))]
fn session(alloc: Global, number: u32, k: u32) -> Result<CallList, NoMemory>
    requires { k < 8 }
    ensures { IfOk result (λ calls. calls ≡ session_at number k) }
{
    let mut calls = Vec::with_capacity(alloc, CALLS_EACH as usize)?;
    for i in 0..CALLS_EACH {
        calls.push(call(number, SESSIONS * i + k))?;
    }
    Ok(CallList::new(calls))
}

// Call j.
fn call(number: u32, j: u32) -> Call
    requires { j < 20000 }
    ensures { result ≡ call_at number j }
{
    let place = FIRST_WORD + 3 * j;
    let kind = pick(number, place, 20);
    let atom = pick(number, place + 1, ATOMS);
    let site = pick(number, place + 2, SITES);
    drawn_call(kind, atom, site)
}

// The call of an atom and a site by the kind that was drawn.
#[tactic(auto, unfolding(crate::specs::LoadSessions::drawn_call))]
fn drawn_call(kind: u16, atom: u16, site: u16) -> Call
    ensures { result ≡ drawn_call kind atom site }
{
    match kind {
        0 => Call::Look(SiteId(site)),
        1 => Call::Enabled(SiteId(site)),
        2 => Call::Accepting,
        3 => Call::Exec(SiteId(site), EventId(atom)),
        _ => Call::Exec(SiteId(atom % SITES), EventId(atom)),
    }
}
