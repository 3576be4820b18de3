ghost use Rattle.std.specs.Prelude.{◌≡◌, ◌<◌, ◌≤◌, ◌^◌, [], length, map, vec_capacity, IfOk};
ghost use Rattle.serde_json.specs.View.{items_view, view};
ghost use Rattle.dcr_format.specs.Size.{items_size};
ghost use Rattle.dcr_format.specs.Facts.{Judges, first, refusal};
ghost use Rattle.dcr_session_json.specs.Build.{build_facts, call_of, calls_fact, calls_of, sessions_in};

use crate::arrays::{calls, text};
use dcr_format::CaseStop;
use dcr_graph::Graph;
use dcr_journal::{Call, CallList};
use dcr_line::{Directory, read_call};
use dcr_proj::Cover;
use serde_json::Value;
use std::alloc::Global;

// The calls of each session, or the first text that is none. The names are put in a directory before.
pub(crate) fn read_sessions(
    alloc: Global,
    sessions: &[Value],
    graph: &Graph,
    cover: &Cover,
) -> Result<Vec<CallList>, CaseStop>
    requires { items_size (items_view sessions.now) < 2 ^ 32 }
    ensures facts { Judges (first (build_facts cover.now.names graph.now.names (map view sessions.now))) result }
    ensures sessions { IfOk result (λ read. read.items ≡ sessions_in cover.now.names graph.now.names (map view sessions.now)) }
{
    let directory = Directory::new(alloc, graph, cover)?;
    let read = read_each(alloc, sessions, &directory)?;
    Ok(read)
}

// The same, over the names in the directory. The memory for a session's calls is taken before its first one is read.
fn read_each(
    alloc: Global,
    sessions: &[Value],
    directory: &Directory<'_>,
) -> Result<Vec<CallList>, CaseStop>
    requires { items_size (items_view sessions.now) < 2 ^ 32 }
    ensures facts { Judges (first (build_facts directory.now.sites directory.now.atoms (map view sessions.now))) result }
    ensures sessions { IfOk result (λ read. read.items ≡ sessions_in directory.now.sites directory.now.atoms (map view sessions.now)) }
{
    let mut read = Vec::new(alloc);
    for k in 0..sessions.len() {
        let texts = calls(&sessions[k]);
        let room = Vec::with_capacity(alloc, texts.len())?;
        let calls = read_calls(room, k as u32, texts, directory)?;
        read.push(CallList::new(calls))?;
    }
    Ok(read)
}

// The calls of session k, or the first text that is none. It takes no memory: there is room for all of them.
fn read_calls(
    room: Vec<Call>,
    k: u32,
    texts: &[Value],
    directory: &Directory<'_>,
) -> Result<Vec<Call>, CaseStop>
    requires few { length texts.now < 2 ^ 32 }
    requires empty { room.items ≡ [] }
    requires room { length texts.now ≤ vec_capacity room }
    ensures fact { refusal result ≡ calls_fact directory.now.sites directory.now.atoms k (map view texts.now) }
    ensures calls { IfOk result (λ calls. calls.items ≡ calls_of directory.now.sites directory.now.atoms (map view texts.now)) }
{
    let mut calls = room;
    for j in 0..texts.len() {
        let Some(call) = read_text(&texts[j], directory) else {
            return Err(CaseStop::CallLine { k, j: j as u32 });
        };
        calls.push_reserved(call);
    }
    Ok(calls)
}

// The call that a text is.
fn read_text(call: &Value, directory: &Directory<'_>) -> Option<Call>
    ensures { result ≡ call_of directory.now.sites directory.now.atoms (view call.now) }
{
    read_call(text(call).as_bytes(), directory)
}
