ghost use Rattle.std.specs.Prelude.{◌≡◌, ◌<◌, List, length, IfOk};
ghost use Rattle.std.specs.List.{All};
ghost use Rattle.dcr_set.specs.Least.{least};
ghost use Rattle.dcr_set.specs.EventSet.{Set};
ghost use Rattle.dcr_graph.specs.Rules.{Rules};
ghost use Rattle.dcr_graph.specs.declared.marking.Marking.{Marking as Marks};
ghost use Rattle.dcr_graph.specs.GraphValue.{rules_of};
ghost use Rattle.dcr_graph.specs.Projection.{HasRoom};
ghost use Rattle.dcr_proj.specs.NetworkValue.{participants_of};
ghost use Rattle.dcr_run.specs.SitesModel.{alphabets_in};
ghost use Rattle.dcr_site.specs.Together.{AllStand, AreOver, waits_in};
ghost use Rattle.dcr_run.specs.Engine.{AreOverMore, HeardEach};

use dcr_graph::{Graph, Marking};
use dcr_journal::{Call, Outcome};
use dcr_proj::{Cover, Network, project};
use dcr_set::{EventId, EventSet, NoMemory, SiteId};
use dcr_site::Site;
use std::alloc::Global;
use std::marker::Model;

/// The sites of a case, in order. Contracts see them as `Engine`; what they say of a graph holds where the
/// sites stand together at a marking of that graph (`AllStand`).
#[derive(Drop)]
pub struct Sites {
    network: Network,
    members: Vec<Site>,
}

impl Model for Sites {
    ghost use Rattle.dcr_run.specs.Engine.{Engine};

    ghost Value = { Engine };

    ghost use Rattle.dcr_run.specs.SitesModel.{engine_of, AreInNetwork};

    ghost view = { engine_of };

    ghost invariant = { AreInNetwork };
}

impl Sites {
    ghost use Rattle.std.specs.Prelude.{◌≡◌, ◌<◌, List, length, IfOk, OnOk};
    ghost use Rattle.std.specs.List.{All};
    ghost use Rattle.dcr_set.specs.EventSet.{Set};
    ghost use Rattle.dcr_graph.specs.Rules.{Rules};
    ghost use Rattle.dcr_graph.specs.Step.{step};
    ghost use Rattle.dcr_graph.specs.Cause.{waits};
    ghost use Rattle.dcr_graph.specs.GraphValue.{rules_of};
    ghost use Rattle.dcr_graph.specs.Projection.{HasRoom};
    ghost use Rattle.dcr_graph.specs.declared.marking.Marking.{Marking as Marks};
    ghost use Rattle.dcr_journal.specs.Answer.{answer};
    ghost use Rattle.dcr_journal.specs.Run.{IsInRange, stepped_by};
    ghost use Rattle.dcr_proj.specs.CoverValue.{IsCovered, atoms_of};
    ghost use Rattle.dcr_run.specs.SitesModel.{alphabets_in};
    ghost use Rattle.dcr_site.specs.Together.{AllStand, AreOver};

    /// The sites of the cover, which is one of the graph's atoms, at the opening marking.
    pub fn open(
        alloc: Global,
        graph: &Graph,
        cover: &Cover,
        opening: &Marking,
    ) -> Result<Sites, NoMemory>
        requires rooms { All (λ set. length set ≡ length graph.now.names) cover.now.owned }
        requires opening { HasRoom (length graph.now.names) opening.now }
        ensures atoms { IfOk result (λ engine. engine.atoms ≡ length graph.now.names) }
        ensures stand { IfOk result (λ engine. AllStand (rules_of graph.now) cover.now.owned opening.now engine.sites) }
        ensures covers { OnOk result (IsCovered (length graph.now.names) cover.now.owned) }
    {
        let opened = open_each(alloc, graph, cover.owned_sets(), opening)?;
        let network = Network::new(alloc, opened.alphabets)?;
        Ok(Sites {
            network,
            members: opened.members,
        })
    }

    /// Of sites that were opened before, with the network of their alphabets.
    pub fn of(network: Network, members: Vec<Site>) -> Sites
        requires network { network ≡ alphabets_in members.items }
        requires over { AreOver (atoms_of network) members.items }
        ensures atoms { result.atoms ≡ atoms_of network }
        ensures sites { result.sites ≡ members.items }
    {
        Sites { network, members }
    }

    /// The network and the sites.
    pub fn into_parts(self) -> (Network, Vec<Site>)
        ensures network { result.0 ≡ alphabets_in self.sites }
        ensures sites { result.1.items ≡ self.sites }
    {
        let Sites { network, members } = self;
        (network, members)
    }

    /// The sites, in order.
    pub fn members(&self) -> &[Site]
        ensures { result.now ≡ self.now.sites }
    {
        self.members.as_slice()
    }

    /// What the call is answered: an execution, a look and the question what is enabled by the site that is
    /// asked, from its own marks, and the question whether the marking is accepting by all sites together. An
    /// execution that is done is applied at every site whose alphabet has the event. Nothing else changes a mark.
    pub fn call(&mut self, call: Call) -> Outcome
        requires { IsInRange (length self.old.sites) self.old.atoms call }
        ensures atoms { self.new.atoms ≡ self.old.atoms }
        ensures as_many { length self.new.sites ≡ length self.old.sites }
        ensures answered { (G : Rules) (C : List Set) (M : Marks) → IsCovered G.atoms C → AllStand G C M self.old.sites → result ≡ answer G C M call }
        ensures stepped { (G : Rules) (C : List Set) (M : Marks) → AllStand G C M self.old.sites
            → AllStand G C (stepped_by G M call result) self.new.sites }
    {
        match call {
            Call::Exec(site, e) => self.exec(site, e),
            Call::Look(site) => self.look(site),
            Call::Enabled(site) => self.enabled(site),
            Call::Accepting => self.accepting(),
        }
    }

    // An execution of the event, asked for at the site.
    fn exec(&mut self, site: SiteId, e: EventId) -> Outcome
        requires site { site < length self.old.sites }
        requires event { e < self.old.atoms }
        ensures atoms { self.new.atoms ≡ self.old.atoms }
        ensures as_many { length self.new.sites ≡ length self.old.sites }
        ensures answered { (G : Rules) (C : List Set) (M : Marks) → AllStand G C M self.old.sites → result ≡ answer G C M (Call.Exec site e) }
        ensures stepped { (G : Rules) (C : List Set) (M : Marks) → AllStand G C M self.old.sites
            → AllStand G C (stepped_by G M (Call.Exec site e) result) self.new.sites }
    {
        let outcome = self.decide(site, e);
        if let Outcome::Done = outcome {
            self.apply(e);
        }
        outcome
    }

    // What the site answers to an execution of the event.
    fn decide(&self, site: SiteId, e: EventId) -> Outcome
        requires site { site < length self.now.sites }
        requires event { e < self.now.atoms }
        ensures { (G : Rules) (C : List Set) (M : Marks) → AllStand G C M self.now.sites → result ≡ answer G C M (Call.Exec site e) }
    {
        Outcome::of_decision(self.members[usize::from(site.0)].decide(e))
    }

    // The marks of the site.
    fn look(&self, site: SiteId) -> Outcome
        requires { site < length self.now.sites }
        ensures { (G : Rules) (C : List Set) (M : Marks) → AllStand G C M self.now.sites → result ≡ answer G C M (Call.Look site) }
    {
        Outcome::Marks(self.members[usize::from(site.0)].mark())
    }

    // The events of the site that may be executed.
    fn enabled(&self, site: SiteId) -> Outcome
        requires { site < length self.now.sites }
        ensures { (G : Rules) (C : List Set) (M : Marks) → AllStand G C M self.now.sites → result ≡ answer G C M (Call.Enabled site) }
    {
        Outcome::Can(self.members[usize::from(site.0)].can())
    }

    // Whether no atom is included and pending, or the least that is.
    fn accepting(&self) -> Outcome
        ensures { (G : Rules) (C : List Set) (M : Marks) → IsCovered G.atoms C → AllStand G C M self.now.sites → result ≡ answer G C M Call.Accepting }
    {
        Outcome::verdict(self.first_waiting())
    }

    // Applies an execution at the sites whose alphabet has the event, and at no other.
    fn apply(&mut self, e: EventId)
        requires { e < self.old.atoms }
        ensures atoms { self.new.atoms ≡ self.old.atoms }
        ensures as_many { length self.new.sites ≡ length self.old.sites }
        ensures stepped { (G : Rules) (C : List Set) (M : Marks) → AllStand G C M self.old.sites → AllStand G C (step G M e) self.new.sites }
    {
        let participants = self.network.participants(e);
        hear_each(&mut self.members, participants, e);
    }

    // The least atom that is included and pending, of the atoms that a site owns.
    fn first_waiting(&self) -> Option<EventId>
        ensures { (G : Rules) (C : List Set) (M : Marks) → IsCovered G.atoms C → AllStand G C M self.now.sites → result ≡ waits G.atoms M }
    {
        first_of_each(&self.members)
    }
}

// Sites that were opened, and beside them their alphabets.
#[derive(Drop)]
struct Opened {
    alphabets: Vec<EventSet>,
    members: Vec<Site>,
}

// A site for each owned set.
fn open_each(
    alloc: Global,
    graph: &Graph,
    owned: &[EventSet],
    opening: &Marking,
) -> Result<Opened, NoMemory>
    requires owned { All (λ set. length set ≡ length graph.now.names) owned.now }
    requires opening { HasRoom (length graph.now.names) opening.now }
    ensures over { IfOk result (λ opened. AreOver (length graph.now.names) opened.members.items) }
    ensures stand { IfOk result (λ opened. AllStand (rules_of graph.now) owned.now opening.now opened.members.items) }
    ensures alphabets { IfOk result (λ opened. opened.alphabets.items ≡ alphabets_in opened.members.items) }
{
    let mut alphabets = Vec::with_capacity(alloc, owned.len())?;
    let mut members = Vec::with_capacity(alloc, owned.len())?;
    for own in owned {
        let projection = project(alloc, graph, own)?;
        let heard = projection.alphabet().copy();
        alphabets.push(heard)?;
        members.push(Site::open(projection, opening))?;
    }
    Ok(Opened { alphabets, members })
}

// Applies an execution at the participants.
fn hear_each(members: &mut [Site], participants: &[SiteId], e: EventId)
    requires over { AreOverMore e members.old }
    requires all { participants.now ≡ participants_of (alphabets_in members.old) e }
    ensures { HeardEach e members.old members.new }
{
    for participant in participants {
        let member = &mut members[usize::from(participant.0)];
        member.apply(e);
    }
}

// The least atom for which a site waits.
fn first_of_each(members: &[Site]) -> Option<EventId>
    ensures { (G : Rules) (C : List Set) (M : Marks) → AllStand G C M members.now → result ≡ least G.atoms (waits_in C M) }
{
    let mut first = None;
    for member in members {
        first = EventId::lesser(first, member.first_waiting());
    }
    first
}
