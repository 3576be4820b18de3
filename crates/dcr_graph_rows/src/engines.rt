// Worked rows of the two engines that no run shows: an execution of what is blocked, and what one site alone waits for.
ghost use Rattle.std.specs.Prelude.{◌≡◌, ◌<◌, length};

use crate::build::{HOSPITAL, event_set, graph_of, members, opening};
use crate::same::same;
use dcr_graph::{Cause, Graph};
use dcr_mark::Plain;
use dcr_proj::project;
use dcr_set::{EventId, EventSet};
use dcr_site::{Decision, Site};
use std::alloc::Global;
use std::test::Fail;

#[test]
fn a_blocked_event_is_stepped_all_the_same(rt: HostRuntime) -> Result<(), Fail> {
    let graph = graph_of(rt.alloc(), &HOSPITAL)?;
    let mut plain = Plain::new(rt.alloc(), &graph, &opening())?;
    let cause = Some(Cause::Condition(EventId(1)));
    same(&rt, &plain.why(EventId(3)), &cause, "why dt is blocked");
    plain.execute(EventId(3));
    let after = plain.marking();
    let marks = [
        members(&after.executed),
        members(&after.pending),
        members(&after.included),
    ];
    same(&rt, &marks, &[0b1000, 0b0010, 0b1011], "the marks after dt");
    same(
        &rt,
        &plain.waits(),
        &Some(EventId(1)),
        "what is waited for after dt",
    );
    Ok(())
}

// What a site that owns these waits for at the opening, what it waits for once medicine is prescribed, and whether it may
// execute this event then.
fn waiting(
    alloc: Global,
    graph: &Graph,
    own: &EventSet,
    event: u16,
) -> Result<(Option<EventId>, Option<EventId>, Option<Decision>), Fail>
    requires atoms { length graph.now.names ≡ 4 }
    requires own { length own.now ≡ 4 }
    requires event { event < 4 }
{
    let projection = project(alloc, graph, own)?;
    let mut site = Site::open(projection, &opening());
    let before = site.first_waiting();
    if !site.hears(EventId(0)) {
        return Ok((before, None, None));
    }
    site.apply(EventId(0));
    let decision = site.decide(EventId(event));
    Ok((before, site.first_waiting(), Some(decision)))
}

// Once medicine is prescribed, the doctor is to sign and the nurse to give; the sites together wait for the first alone.
#[test]
fn each_site_tells_what_it_waits_for(rt: HostRuntime) -> Result<(), Fail> {
    let graph = graph_of(rt.alloc(), &HOSPITAL)?;
    let doctor = waiting(rt.alloc(), &graph, &event_set(&[0, 1]), 1)?;
    let told = (None, Some(EventId(1)), Some(Decision::Enabled));
    same(&rt, &doctor, &told, "the doctor");
    let nurse = waiting(rt.alloc(), &graph, &event_set(&[2, 3]), 2)?;
    let unsigned = Decision::Blocked(Cause::Condition(EventId(1)));
    let told = (None, Some(EventId(2)), Some(unsigned));
    same(&rt, &nurse, &told, "the nurse");
    Ok(())
}
