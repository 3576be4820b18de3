use dcr_graph::{Cause, Marking, SiteMark};
use dcr_proj::Projection;
use dcr_set::{EventId, EventSet};
use std::marker::Model;

/// What a site answers when it is asked whether an event may be executed.
#[derive(Clone, Copy, Debug, PartialEq, Eq)]
pub enum Decision {
    /// The site doesn't own the event.
    NotHere,
    /// The event is blocked, by this cause.
    Blocked(Cause),
    /// The event may be executed.
    Enabled,
}

/// One site: its projection and its marks. It decides and applies from these alone, hands out none of its
/// relations, and can't be copied. Contracts see its projection and its marks; what they say of a graph
/// holds where the site stands at a marking of that graph (`StandsAt`).
#[derive(Drop)]
pub struct Site {
    projection: Projection,
    mark: SiteMark,
    // What was found since an execution was applied: the first event that waits, and what can be executed. Each tells
    // beside it whether it is known, so that to forget it is one store.
    knows_waits: bool,
    waits: Option<EventId>,
    knows_can: bool,
    can: EventSet,
}

impl Model for Site {
    ghost use Rattle.dcr_site.specs.Seen.{Seen};

    ghost Value = { Seen };

    ghost use Rattle.dcr_site.specs.SiteModel.{seen_of, HasMarks};

    ghost view = { seen_of };

    ghost use Rattle.std.specs.Prelude.{◌≡◌, List, Bool, IsTrue, length};
    ghost use Rattle.dcr_graph.specs.Rules.{Rules};
    ghost use Rattle.dcr_graph.specs.Cause.{enabled_in};
    ghost use Rattle.dcr_graph.specs.declared.marking.Marking.{Marking as Marks};
    ghost use Rattle.dcr_site.specs.Decision.{owned_waits};
    ghost use Rattle.dcr_site.specs.Seen.{StandsAt};

    ghost invariant = { λ s. HasMarks s
        × (IsTrue s.knows_waits → (G : Rules) (S : List Bool) (M : Marks) → StandsAt G S M (seen_of s) → s.waits ≡ owned_waits G S M)
        × (length s.can ≡ length s.projection.own)
        × (IsTrue s.knows_can → (G : Rules) (S : List Bool) (M : Marks) → StandsAt G S M (seen_of s) → s.can ≡ enabled_in G S M) };
}

impl Site {
    ghost use Rattle.std.specs.Prelude.{◌≡◌, ◌<◌, ◌≤◌, List, Bool, ℕ, true, length};
    ghost use Rattle.dcr_set.specs.EventSet.{has};
    ghost use Rattle.dcr_set.specs.declared.id.TheConstants.{MAX_ATOMS};
    ghost use Rattle.dcr_graph.specs.Rules.{Rules};
    ghost use Rattle.dcr_graph.specs.Cause.{enabled_in, is_enabled_in};
    ghost use Rattle.dcr_graph.specs.Step.{step};
    ghost use Rattle.dcr_graph.specs.Projection.{HasRoom};
    ghost use Rattle.dcr_graph.specs.declared.marking.Marking.{Marking as Marks};
    ghost use Rattle.dcr_proj.specs.Local.{cut_to, projection_of};
    ghost use Rattle.dcr_site.specs.Seen.{StandsAt};
    ghost use Rattle.dcr_site.specs.Decision.{decision, owned_waits};

    /// The site with this projection, whose marks are those of a marking over as many atoms. Where the
    /// projection is that of a graph to an owned set, the site stands at that marking.
    pub fn open(projection: Projection, start: &Marking) -> Site
        requires { HasRoom (length projection.own) start.now }
        ensures projection { result.projection ≡ projection }
        ensures mark { result.mark ≡ cut_to projection start.now }
        ensures stands { (G : Rules) (S : List Bool) → projection ≡ projection_of G S → StandsAt G S start.now result }
    {
        let mark = projection.start(start);
        let can = EventSet::new(projection.own().room());
        Site {
            projection,
            mark,
            knows_waits: false,
            waits: None,
            knows_can: false,
            can,
        }
    }

    /// What the site answers to an execution of the event, which is an atom.
    pub fn decide(&self, e: EventId) -> Decision
        requires { e < length self.now.projection.own }
        ensures { (G : Rules) (S : List Bool) (M : Marks) → StandsAt G S M self.now → result ≡ decision G S M e }
    {
        if !self.projection.own().contains(e) {
            return Decision::NotHere;
        }
        if !self.mark.included.contains(e) {
            return Decision::Blocked(Cause::Excluded);
        }
        if let Some(c) = self.projection.open_condition(e, &self.mark) {
            return Decision::Blocked(Cause::Condition(c));
        }
        if let Some(m) = self.projection.pending_milestone(e, &self.mark) {
            return Decision::Blocked(Cause::Milestone(m));
        }
        Decision::Enabled
    }

    /// Whether the event is of the alphabet, so that the site must hear of its executions.
    pub fn hears(&self, e: EventId) -> bool
        ensures { result ≡ has self.now.projection.alphabet e }
    {
        self.projection.alphabet().contains(e)
    }

    /// Applies an execution of an event of the alphabet to the marks.
    pub fn apply(&mut self, e: EventId)
        requires { has self.old.projection.alphabet e ≡ true }
        ensures projection { self.new.projection ≡ self.old.projection }
        ensures stepped { (G : Rules) (S : List Bool) (M : Marks) → StandsAt G S M self.old → StandsAt G S (step G M e) self.new }
    {
        self.projection.apply(e, &mut self.mark);
        self.knows_waits = false;
        self.knows_can = false;
    }

    /// The marks.
    pub fn mark(&self) -> SiteMark
        ensures { result ≡ self.now.mark }
    {
        self.mark.copy()
    }

    /// The owned events that may be executed, in a set with the room of the projection. Takes no memory.
    pub fn can(&self) -> EventSet
        ensures enabled { (G : Rules) (S : List Bool) (M : Marks) → StandsAt G S M self.now → result ≡ enabled_in G S M }
        ensures room { length result ≡ length self.now.projection.own }
    {
        let mut can = EventSet::new(self.atoms());
        for e in self.projection.own().iter() {
            if self.enables(e) {
                can.insert(e);
            }
        }
        can
    }

    /// As `can`. What was found is kept until an execution is applied, so that who asks again gets it at once.
    pub fn can_again(&mut self) -> EventSet
        ensures same { self.new ≡ self.old }
        ensures enabled { (G : Rules) (S : List Bool) (M : Marks) → StandsAt G S M self.old → result ≡ enabled_in G S M }
        ensures room { length result ≡ length self.old.projection.own }
    {
        if !self.knows_can {
            self.can = self.can();
            self.knows_can = true;
        }
        self.can.copy()
    }

    /// How many atoms the projection is over.
    pub fn atoms(&self) -> u16
        ensures own { result ≡ length self.now.projection.own }
        ensures most { result ≤ MAX_ATOMS }
        ensures stands { (G : Rules) (S : List Bool) (M : Marks) → StandsAt G S M self.now → result ≡ G.atoms }
    {
        self.projection.own().room()
    }

    // Whether the event, which is an atom, is owned and may be executed.
    fn enables(&self, e: EventId) -> bool
        requires { e < length self.now.projection.own }
        ensures { (G : Rules) (S : List Bool) (M : Marks) → StandsAt G S M self.now → result ≡ is_enabled_in G S M e }
    {
        matches!(self.decide(e), Decision::Enabled)
    }

    /// The least owned event that is included and pending. None exactly where there is none.
    pub fn first_waiting(&self) -> Option<EventId>
        ensures { (G : Rules) (S : List Bool) (M : Marks) → StandsAt G S M self.now → result ≡ owned_waits G S M }
    {
        self.projection
            .own()
            .first_common_three(&self.mark.included, &self.mark.pending)
    }

    /// As `first_waiting`. What was found is kept until an execution is applied.
    #[inline(never)]
    pub fn waits_again(&mut self) -> Option<EventId>
        ensures same { self.new ≡ self.old }
        ensures waits { (G : Rules) (S : List Bool) (M : Marks) → StandsAt G S M self.old → result ≡ owned_waits G S M }
    {
        if !self.knows_waits {
            self.waits = self.first_waiting();
            self.knows_waits = true;
        }
        self.waits
    }
}
