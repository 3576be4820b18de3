ghost use Rattle.std.specs.Prelude.{◌≡◌, ◌≤◌, codes, IfOk};
ghost use Rattle.serde_json.specs.Find.{get};
ghost use Rattle.serde_json.specs.View.{view};
ghost use Rattle.dcr_format.specs.Size.{size};
ghost use Rattle.dcr_format.specs.Facts.{first, refusal};
ghost use Rattle.dcr_format.specs.declared.stop.Part.TheVariants as part;
ghost use Rattle.dcr_cover_json.specs.Seen.{written as cover_written};
ghost use Rattle.dcr_cover_json.specs.Shape.{shape_facts as cover_facts, sites_in};
ghost use Rattle.dcr_graph_json.specs.Seen.{written as graph_written};
ghost use Rattle.dcr_graph_json.specs.Shape.{shape_facts as graph_facts, written_in as graph_in};
ghost use Rattle.dcr_session_json.specs.Seen.{written as sessions_written};
ghost use Rattle.dcr_session_json.specs.Shape.{shape_facts as session_facts};
ghost use Rattle.dcr_session_json.specs.Written.{written_in as sessions_in};

use crate::Case;
use crate::version::read_version;
use dcr_cover_json::CoverText;
use dcr_format::{CaseStop, Part, member};
use dcr_graph_json::{Built, GraphText};
use dcr_nest::Version;
use dcr_session_json::SessionText;
use serde_json::Value;
use std::alloc::Global;

// A case file as it is written, of the right shape, member by member. It is lent from the JSON value.
#[derive(Drop)]
pub(crate) struct FileText<'v> {
    pub(crate) graph: GraphText<'v>,
    pub(crate) cover: CoverText<'v>,
    pub(crate) sessions: SessionText<'v>,
}

impl<'v> FileText<'v> {
    ghost use Rattle.std.specs.Prelude.{◌≡◌, ◌≤◌, None, IfOk};
    ghost use Rattle.serde_json.specs.View.{view};
    ghost use Rattle.dcr_format.specs.Size.{size};
    ghost use Rattle.dcr_format.specs.Facts.{Judges, first, refusal};
    ghost use Rattle.dcr_json.specs.Built.{case_of, IsCase};
    ghost use Rattle.dcr_json.specs.Facts.{build_facts, limit_facts, shape_facts};
    ghost use Rattle.dcr_json.specs.Seen.{written};
    ghost use Rattle.dcr_json.specs.Written.{spelled_in, written_in};

    // What is written in the value of a file, or the first part that is not of its shape: the value and its version, then
    // the graph, the cover and the sessions. It takes no memory.
    pub(crate) fn shape(value: &'v Value) -> Result<FileText<'v>, CaseStop>
        requires { size (view value.now) ≤ 16777216 }
        ensures facts { refusal result ≡ first (shape_facts (view value.now)) }
        ensures written { IfOk result (λ file. written file ≡ written_in (view value.now)) }
    {
        let Some(version) = read_version(value) else {
            return Err(no_top());
        };
        let graph = read_graph(version, value)?;
        let cover = read_cover(value)?;
        let sessions = read_sessions(value)?;
        Ok(FileText {
            graph,
            cover,
            sessions,
        })
    }

    // Whether the members keep their limits, or the first that is broken.
    pub(crate) fn limits(&self, alloc: Global) -> Result<(), CaseStop>
        ensures { Judges (first (limit_facts (written self.now))) result }
    {
        self.graph.limits(alloc)?;
        self.cover.limits()?;
        self.sessions.limits()?;
        Ok(())
    }

    // The case that is written within the limits, or the first that is wrong: in the graph, then in the cover of its atoms,
    // and then in the sessions, whose calls are ones of both.
    pub(crate) fn build(&self, alloc: Global) -> Result<Case, CaseStop>
        requires { first (limit_facts (written self.now)) ≡ None }
        ensures facts { Judges (first (build_facts (written self.now))) result }
        ensures case { IfOk result (λ case. case_of case ≡ spelled_in (written self.now)) }
        ensures fits { IfOk result IsCase }
    {
        let built = self.graph.build(alloc)?;
        let cover = self.cover.build(alloc, &built.nested, &built.graph)?;
        let sessions = self.sessions.build(alloc, &built.graph, &cover)?;
        let Built {
            nested,
            graph,
            opening,
        } = built;
        Ok(Case {
            nested,
            graph,
            cover,
            opening,
            sessions,
        })
    }
}

// The graph in the member of that name.
fn read_graph(version: Version, value: &Value) -> Result<GraphText<'_>, CaseStop>
    requires { size (view value.now) ≤ 16777216 }
    ensures facts { refusal result ≡ first (graph_facts version (get (codes "graph") (view value.now))) }
    ensures written { IfOk result (λ graph. graph_written graph ≡ graph_in version (get (codes "graph") (view value.now))) }
{
    let graph = GraphText::shape(version, member(value, "graph"))?;
    Ok(graph)
}

// The cover in the member of that name.
fn read_cover(value: &Value) -> Result<CoverText<'_>, CaseStop>
    requires { size (view value.now) ≤ 16777216 }
    ensures facts { refusal result ≡ first (cover_facts (get (codes "cover") (view value.now))) }
    ensures written { IfOk result (λ cover. cover_written cover ≡ sites_in (get (codes "cover") (view value.now))) }
{
    let cover = CoverText::shape(member(value, "cover"))?;
    Ok(cover)
}

// The sessions in the member of that name.
fn read_sessions(value: &Value) -> Result<SessionText<'_>, CaseStop>
    requires { size (view value.now) ≤ 16777216 }
    ensures facts { refusal result ≡ first (session_facts (get (codes "sessions") (view value.now))) }
    ensures written { IfOk result (λ sessions. sessions_written sessions ≡ sessions_in (get (codes "sessions") (view value.now))) }
{
    let sessions = SessionText::shape(member(value, "sessions"))?;
    Ok(sessions)
}

// The refusal of a value that is no case file.
fn no_top() -> CaseStop
    ensures { result ≡ CaseStop.Shape part.Top 0 }
{
    CaseStop::Shape {
        part: Part::Top,
        index: 0,
    }
}
