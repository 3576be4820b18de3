ghost use Rattle.std.specs.Prelude.{◌≡◌, ◌<◌, ◌^◌};
ghost use Rattle.serde_json.specs.View.{items_view};
ghost use Rattle.dcr_format.specs.Size.{items_size};
ghost use Rattle.dcr_format.specs.declared.stop.Part.TheVariants as part;

use crate::SessionList;
use crate::arrays::{count_calls, read_array, try_sessions};
use crate::calls::read_sessions;
use dcr_format::{CaseStop, LimitKind, MAX_CALLS, MAX_SESSIONS, Part, try_count};
use dcr_graph::Graph;
use dcr_proj::Cover;
use serde_json::Value;
use std::alloc::Global;

/// The sessions of a case file as they are written, of the right shape. They are lent from the JSON value.
#[derive(Drop)]
pub struct SessionText<'v> {
    sessions: &'v [Value],
    ghost few: { items_size (items_view sessions.now) < 2 ^ 32 },
}

impl<'v> SessionText<'v> {
    ghost use Rattle.std.specs.Prelude.{◌≡◌, ◌<◌, ◌^◌, length, None, option_map, IfOk};
    ghost use Rattle.std.specs.Option.{ForSome};
    ghost use Rattle.serde_json.specs.View.{view};
    ghost use Rattle.dcr_format.specs.Size.{size};
    ghost use Rattle.dcr_format.specs.Facts.{Judges, first, refusal};
    ghost use Rattle.dcr_session_json.specs.Accepted.{IsAcceptedSessions};
    ghost use Rattle.dcr_session_json.specs.Build.{build_facts, sessions_in};
    ghost use Rattle.dcr_session_json.specs.Limits.{limit_facts};
    ghost use Rattle.dcr_session_json.specs.Seen.{written};
    ghost use Rattle.dcr_session_json.specs.Shape.{shape_facts};
    ghost use Rattle.dcr_session_json.specs.Written.{written_in};

    /// The sessions that are written in the member `sessions`, none where there is no such member, or the first part that
    /// is not of its shape: `sessions`, then the sessions by the least index. It takes no memory.
    #[tactic(auto, unfolding(crate::specs::Shape::shape_facts))]
    pub fn shape(sessions: Option<&'v Value>) -> Result<SessionText<'v>, CaseStop>
        requires { ForSome sessions (λ v. size (view v.now) < 2 ^ 32) }
        ensures facts { refusal result ≡ first (shape_facts (option_map (λ v. view v.now) sessions.entry)) }
        ensures written { IfOk result (λ text. written text ≡ written_in (option_map (λ v. view v.now) sessions.entry)) }
    {
        let Some(sessions) = read_array(sessions) else {
            return Err(no_array());
        };
        try_sessions(sessions)?;
        Ok(SessionText { sessions })
    }

    /// Whether the sessions keep their limits, or the first that they break, with the count that was found: the sessions,
    /// and the calls of all of them. It takes no memory.
    #[tactic(auto, unfolding(crate::specs::Limits::limit_facts))]
    pub fn limits(&self) -> Result<(), CaseStop>
        ensures { refusal result ≡ first (limit_facts (written self.now)) }
    {
        try_count(LimitKind::Sessions, MAX_SESSIONS, self.sessions.len())?;
        try_count(LimitKind::Calls, MAX_CALLS, count_calls(self.sessions))?;
        Ok(())
    }

    /// The calls of each session within the limits, at sites of this cover and of events of this graph, or the first text
    /// that is no call, by the session and then by its place. `NoMemory` may come in the place of any answer.
    pub fn build(
        &self,
        alloc: Global,
        graph: &Graph,
        cover: &Cover,
    ) -> Result<SessionList, CaseStop>
        requires { first (limit_facts (written self.now)) ≡ None }
        ensures facts { Judges (first (build_facts cover.now.names graph.now.names (written self.now))) result }
        ensures sessions { IfOk result (λ sessions. sessions ≡ sessions_in cover.now.names graph.now.names (written self.now)) }
        ensures accepted { IfOk result (λ sessions. IsAcceptedSessions (length cover.now.names) (length graph.now.names) sessions) }
    {
        let sessions = read_sessions(alloc, self.sessions, graph, cover)?;
        Ok(SessionList::new(sessions))
    }
}

// The refusal of what is no array.
fn no_array() -> CaseStop
    ensures { result ≡ CaseStop.Shape part.Sessions 0 }
{
    CaseStop::Shape {
        part: Part::Sessions,
        index: 0,
    }
}
