// What the plain engine answers to a call.
ghost use Rattle.std.specs.Prelude.{◌≡◌, ◌<◌, length, map};
ghost use Rattle.std.specs.List.{All};
ghost use Rattle.dcr_set.specs.EventSet.{has};
ghost use Rattle.std.specs.Prelude.{if◌then◌else◌};
ghost use Rattle.dcr_graph.specs.Cause.{cause};
ghost use Rattle.dcr_graph.specs.GraphValue.{rules_of};
ghost use Rattle.dcr_graph.specs.Projection.{project};
ghost use Rattle.dcr_graph.specs.Rows.{row};
ghost use Rattle.dcr_journal.specs.Answer.{answer, outcome_of};
ghost use Rattle.dcr_journal.specs.Run.{IsInRange};
ghost use Rattle.dcr_journal.specs.declared.call.Outcome.TheVariants.{NotHere};
ghost use Rattle.dcr_replay.specs.Tracks.{tracked_of};
ghost use Rattle.dcr_proj.specs.CoverValue.{IsCover};

use crate::tracked::{Tracked, cut};
use dcr_graph::SiteMark;
use dcr_journal::{Call, Outcome};
use dcr_mark::Plain;
use dcr_proj::Cover;
use dcr_set::{EventId, EventSet, SiteId};

/// The answer to a call at the marking of the engine. The sites track what the list says.
pub(crate) fn answer(plain: &Plain<'_>, cover: &Cover, tracked: &[Tracked], call: &Call) -> Outcome
    requires call { IsInRange (length cover.now.names) (length plain.now.graph.names) call.now }
    requires cover { IsCover cover.now }
    requires rooms { All (λ set. length set ≡ length plain.now.graph.names) cover.now.owned }
    requires tracked { tracked.now ≡ map (tracked_of (rules_of plain.now.graph)) cover.now.owned }
    ensures { result ≡ answer (rules_of plain.now.graph) cover.now.owned plain.now.marking call.now }
{
    match *call {
        Call::Exec(i, e) => execution(plain, cover.owned(i), e),
        Call::Look(i) => Outcome::Marks(look(plain, cover, tracked, i)),
        Call::Enabled(i) => Outcome::Can(plain.enabled_in(cover.owned(i))),
        Call::Accepting => Outcome::verdict(plain.waits()),
    }
}

// The answer to an execution at the site that owns these atoms.
fn execution(plain: &Plain<'_>, owned: &EventSet, e: EventId) -> Outcome
    requires { e < length plain.now.graph.names }
    ensures { result ≡ (if has owned.now e then outcome_of (cause (rules_of plain.now.graph) plain.now.marking e) else NotHere) }
{
    if !owned.contains(e) {
        return Outcome::NotHere;
    }
    Outcome::of_cause(plain.why(e))
}

// The marks of a site.
fn look(plain: &Plain<'_>, cover: &Cover, tracked: &[Tracked], i: SiteId) -> SiteMark
    requires site { i < length cover.now.names }
    requires cover { IsCover cover.now }
    requires tracked { tracked.now ≡ map (tracked_of (rules_of plain.now.graph)) cover.now.owned }
    ensures { result ≡ project (rules_of plain.now.graph) (row cover.now.owned i) plain.now.marking }
{
    cut(&tracked[usize::from(i.0)], plain.marking())
}
