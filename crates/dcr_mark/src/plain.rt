ghost use Rattle.std.specs.Prelude.{◌≡◌, ◌<◌, length, IsOk, IfOk};
ghost use Rattle.dcr_set.specs.Least.{least};
ghost use Rattle.dcr_graph.specs.GraphValue.{rules_of};
ghost use Rattle.dcr_graph.specs.Cause.{cause, enabled_in, waits, is_open_condition, is_pending_milestone};
ghost use Rattle.dcr_graph.specs.Step.{step};
ghost use Rattle.dcr_graph.specs.Projection.{HasRoom};

use dcr_graph::{Cause, Graph, Kind, Marking};
use dcr_set::{EventId, EventSet, NoMemory};
use std::alloc::Global;
use std::marker::Model;

/// The engine of a whole graph: it keeps one marking of all atoms, and knows no site. Contracts see the
/// graph, whose relation is `rules_of`, and the marking.
#[derive(Drop)]
pub struct Plain<'g> {
    graph: &'g Graph,
    marking: Marking,
}

impl<'g> Model for Plain<'g> {
    ghost use Rattle.dcr_mark.specs.Standing.{Standing};

    ghost Value = { Standing };

    ghost use Rattle.dcr_mark.specs.PlainModel.{standing_of, IsOverAtoms};

    ghost view = { standing_of };

    ghost invariant = { IsOverAtoms };
}

impl<'g> Plain<'g> {
    /// The engine of the graph at this marking, which is over as many atoms. It takes no memory today, so
    /// the answer is never `NoMemory`.
    pub fn new(_alloc: Global, graph: &'g Graph, start: &Marking) -> Result<Plain<'g>, NoMemory>
        requires { HasRoom (length graph.now.names) start.now }
        ensures made { IsOk result }
        ensures graph { IfOk result (λ plain. plain.graph ≡ graph.now) }
        ensures marking { IfOk result (λ plain. plain.marking ≡ start.now) }
    {
        let marking = start.copy();
        Ok(Plain { graph, marking })
    }

    /// Why the event, which is an atom, can't be executed now. None exactly where it can.
    pub fn why(&self, e: EventId) -> Option<Cause>
        requires { e < length self.now.graph.names }
        ensures { result ≡ cause (rules_of self.now.graph) self.now.marking e }
    {
        if !self.marking.included.contains(e) {
            return Some(Cause::Excluded);
        }
        if let Some(c) = self.open_condition(e) {
            return Some(Cause::Condition(c));
        }
        self.pending_milestone(e).map(|m| Cause::Milestone(m))
    }

    // The least condition event of the atom that is included and not executed.
    fn open_condition(&self, e: EventId) -> Option<EventId>
        requires { e < length self.now.graph.names }
        ensures { let G = rules_of self.now.graph in result ≡ least G.atoms (is_open_condition G self.now.marking e) }
    {
        self.graph
            .sources(Kind::Condition, e)
            .first_common_without(&self.marking.included, &self.marking.executed)
    }

    // The least milestone event of the atom that is included and pending.
    fn pending_milestone(&self, e: EventId) -> Option<EventId>
        requires { e < length self.now.graph.names }
        ensures { let G = rules_of self.now.graph in result ≡ least G.atoms (is_pending_milestone G self.now.marking e) }
    {
        self.graph
            .sources(Kind::Milestone, e)
            .first_common_three(&self.marking.included, &self.marking.pending)
    }

    /// Executes the event, which is an atom, whether or not a cause blocks it: `why` tells that.
    pub fn execute(&mut self, e: EventId)
        requires { e < length self.old.graph.names }
        ensures graph { self.new.graph ≡ self.old.graph }
        ensures stepped { self.new.marking ≡ step (rules_of self.old.graph) self.old.marking e }
    {
        step_marking(self.graph, &mut self.marking, e);
    }

    /// The least event that is included and pending. None exactly where there is none: the marking is
    /// accepting.
    pub fn waits(&self) -> Option<EventId>
        ensures { result ≡ waits (length self.now.graph.names) self.now.marking }
    {
        self.marking.included.first_common(&self.marking.pending)
    }

    /// Those of the events, a set over the atoms, that no cause blocks.
    pub fn enabled_in(&self, events: &EventSet) -> EventSet
        requires { length events.now ≡ length self.now.graph.names }
        ensures enabled { result ≡ enabled_in (rules_of self.now.graph) events.now self.now.marking }
        ensures room { length result ≡ length self.now.graph.names }
    {
        let mut enabled = EventSet::new(self.graph.atoms());
        for e in events.iter() {
            if self.why(e).is_none() {
                enabled.insert(e);
            }
        }
        enabled
    }

    /// The marking, which is over the atoms of the graph.
    pub fn marking(&self) -> &Marking
        ensures marking { result.now ≡ self.now.marking }
        ensures room { HasRoom (length self.now.graph.names) self.now.marking }
    {
        &self.marking
    }
}

// Steps the marking by the event: its own pending mark goes before its responses come, and its excludes
// have the last word.
fn step_marking(graph: &Graph, marking: &mut Marking, e: EventId)
    requires atom { e < length graph.now.names }
    requires room { HasRoom (length graph.now.names) marking.old }
    ensures stepped { marking.new ≡ step (rules_of graph.now) marking.old e }
    ensures room { HasRoom (length graph.now.names) marking.new }
{
    marking.executed.insert(e);
    marking.pending.remove(e);
    marking.pending.minus_with(graph.targets(Kind::Cancel, e));
    marking.pending.union_with(graph.targets(Kind::Response, e));
    marking.included.union_with(graph.targets(Kind::Include, e));
    marking.included.minus_with(graph.targets(Kind::Exclude, e));
}
