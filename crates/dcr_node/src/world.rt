ghost use Rattle.std.specs.Prelude.{◌≡◌, ◌<◌, ◌≤◌, List, Bool, length, map, IfOk, Some, slice_get};
ghost use Rattle.dcr_set.specs.Least.{least};
ghost use Rattle.dcr_graph.specs.Rules.{Rules};
ghost use Rattle.dcr_graph.specs.declared.marking.Marking.{Marking as Marks};
ghost use Rattle.dcr_site.specs.Seen.{StandsAt};
ghost use Rattle.dcr_site.specs.Together.{AllStand, waits_in};
ghost use Rattle.dcr_node.specs.SiteState.{SiteState, SiteMayTake, answered};
ghost use Rattle.dcr_node.specs.Parts.{MayHappen, Happened, Reached, AreNumbered};

use crate::{CallEvent, JournalNode, SiteNode, WorldEvent};
use dcr_graph::{Graph, Marking, SiteMark};
use dcr_journal::{Closed, MarkList};
use dcr_proj::{Cover, project};
use dcr_run::Sites;
use dcr_set::{EventId, NoMemory, SiteId};
use dcr_site::Site;
use dcr_wire::{Answer, Asked, Message, Packet, Question};
use std::alloc::Global;
use std::marker::Model;

/// The nodes of a case, each by itself, every message that was sent so far, as its bytes, and every question and every
/// answer. It is right at every moment (`IsRight`). Contracts see it as `WorldState`.
#[derive(Drop)]
pub struct World {
    opening: Marking,
    journal: JournalNode,
    sites: Vec<SiteNode>,
    sent: Vec<Packet>,
    questions: Vec<Question>,
    answers: Vec<Answer>,
}

impl Model for World {
    ghost use Rattle.dcr_node.specs.WorldState.{WorldState};

    ghost Value = { WorldState };

    ghost use Rattle.dcr_node.specs.WorldModel.{world_of, IsWorld};

    ghost view = { world_of };

    ghost invariant = { IsWorld };
}

impl World {
    ghost use Rattle.std.specs.Prelude.{◌≡◌, ℕ, ◌<◌, ◌≤◌, List, Bool, length, IfOk, IsTrue, OnOk, OnErr, Some, slice_get};
    ghost use Rattle.std.specs.List.{All};
    ghost use Rattle.dcr_graph.specs.Rules.{Rules};
    ghost use Rattle.dcr_graph.specs.GraphValue.{rules_of};
    ghost use Rattle.dcr_graph.specs.Projection.{HasRoom};
    ghost use Rattle.dcr_graph.specs.declared.marking.Marking.{Marking as Marks};
    ghost use Rattle.dcr_node.specs.WorldState.{opened, IsEvent, IsCallEvent, IsKept, HaveHeardAll};
    ghost use Rattle.dcr_node.specs.Machine.{happens, calls, begun_anew};
    ghost use Rattle.dcr_node.specs.declared.event.CallEvent.TheVariants.{AskSite, DeliverQuestion, DeliverAnswer, ProposeCall};
    ghost use Rattle.dcr_node.specs.Right.{IsRight};
    ghost use Rattle.dcr_node.specs.Closing.{Closes};

    /// The nodes of a graph's sites at an opening marking, with so many sessions and room for so many entries. Nothing was
    /// proposed, and no message was sent.
    pub fn open(
        alloc: Global,
        graph: &Graph,
        cover: &Cover,
        opening: &Marking,
        sessions: u32,
        capacity: u32,
    ) -> Result<World, NoMemory>
        requires rooms { All (λ set. length set ≡ length graph.now.names) cover.now.owned }
        requires opening { HasRoom (length graph.now.names) opening.now }
        requires sessions { sessions ≤ 1024 }
        requires capacity { capacity ≤ 200000 }
        ensures opened { IfOk result (λ world. world ≡ opened (rules_of graph.now) cover.now.owned opening.now sessions capacity) }
        ensures right { IfOk result (λ world. IsRight (rules_of graph.now) cover.now.owned opening.now world) }
    {
        let (network, members) = Sites::open(alloc, graph, cover, opening)?.into_parts();
        let journal = JournalNode::open(alloc, &network, network.sites(), sessions, capacity)?;
        let sites = number_sites(alloc, members)?;
        Ok(World {
            opening: opening.copy(),
            journal,
            sites,
            sent: Vec::new(alloc),
            questions: Vec::new(alloc),
            answers: Vec::new(alloc),
        })
    }

    /// Makes an event happen. An event that can't happen changes nothing: a proposal where one is out or the journal is
    /// full, a question where no proposal is out, an item or a message that isn't there. After `NoMemory`, which comes
    /// before any node has taken a message, the world is as before.
    pub fn event(&mut self, event: WorldEvent) -> Result<(), NoMemory>
        requires { IsEvent self.old event }
        ensures happened { OnOk result ((G : Rules) (C : List (List Bool)) (M : Marks) → IsRight G C M self.old → self.new ≡ happens G C self.old event) }
        ensures right { (G : Rules) (C : List (List Bool)) (M : Marks) → IsRight G C M self.old → IsRight G C M self.new }
        ensures kept { IsKept self.old self.new }
        ensures refused { OnErr result (self.new ≡ self.old) }
    {
        if self.is_idle(&event) {
            return Ok(());
        }
        self.sent.reserve(1)?;
        if let Some(message) = act(&mut self.journal, &mut self.sites, &self.sent, &event) {
            self.sent.push_reserved(Packet::of(&message));
        }
        Ok(())
    }

    /// Makes an event of any call happen. An event that can't happen changes nothing: a proposal where one is out or the
    /// journal is full, a question or an answer that isn't there. After `NoMemory`, which comes before any node has taken
    /// anything, the world is as before.
    pub fn call(&mut self, event: CallEvent) -> Result<(), NoMemory>
        requires { IsCallEvent self.old event }
        ensures happened { OnOk result ((G : Rules) (C : List (List Bool)) (M : Marks) → IsRight G C M self.old → self.new ≡ calls G C self.old event) }
        ensures right { (G : Rules) (C : List (List Bool)) (M : Marks) → IsRight G C M self.old → IsRight G C M self.new }
        ensures kept { IsKept self.old self.new }
        ensures refused { OnErr result (self.new ≡ self.old) }
    {
        match event {
            CallEvent::ProposeCall { session, call } => {
                self.journal.propose_call(session, &call);
                Ok(())
            }
            CallEvent::AskSite { site, asked } => self.ask_site(site, asked),
            CallEvent::DeliverQuestion { question } => self.deliver_question(question),
            CallEvent::DeliverAnswer { answer } => {
                self.deliver_answer(answer);
                Ok(())
            }
        }
    }

    /// A site begins anew: its node is put back to the marks of the opening, and has heard of nothing. The graph and the cover
    /// are those of the world. After `NoMemory` the world is as before.
    pub fn begin_anew(
        &mut self,
        alloc: Global,
        graph: &Graph,
        cover: &Cover,
        site: SiteId,
    ) -> Result<(), NoMemory>
        requires right { IsRight (rules_of graph.now) cover.now.owned self.old.opening self.old }
        requires site { site < length self.old.sites }
        ensures begun { OnOk result (self.new ≡ begun_anew (rules_of graph.now) cover.now.owned self.old site) }
        ensures right { IsRight (rules_of graph.now) cover.now.owned self.old.opening self.new }
        ensures kept { IsKept self.old self.new }
        ensures refused { OnErr result (self.new ≡ self.old) }
    {
        let own = &cover.owned_sets()[usize::from(site.0)];
        let projection = project(alloc, graph, own)?;
        let opened = Site::open(projection, &self.opening);
        self.sites[usize::from(site.0)] = SiteNode::new(site, opened);
        Ok(())
    }

    /// How many questions were sent.
    pub fn questions(&self) -> u64
        ensures { result ≡ length self.now.questions }
    {
        self.questions.len() as u64
    }

    /// How many answers were sent.
    pub fn answers(&self) -> u64
        ensures { result ≡ length self.now.answers }
    {
        self.answers.len() as u64
    }

    /// How many sites there are.
    pub fn sites(&self) -> u16
        ensures sites { result ≡ length self.now.sites }
        ensures some_site { 0 < length self.now.sites }
    {
        self.journal.sites()
    }

    /// How many messages were sent.
    pub fn sent(&self) -> u64
        ensures { result ≡ length self.now.sent }
    {
        self.sent.len() as u64
    }

    /// The journal node.
    pub fn journal_node(&self) -> &JournalNode
        ensures node { result.now ≡ self.now.journal }
        ensures sites { length self.now.journal.alphabets ≡ length self.now.sites }
    {
        &self.journal
    }

    /// The node of a site.
    pub fn site_node(&self, site: SiteId) -> &SiteNode
        requires { site < length self.now.sites }
        ensures { slice_get self.now.sites site ≡ Some result.now }
    {
        &self.sites[usize::from(site.0)]
    }

    /// Ends the world, where each site has heard of its whole stream: the opening marking, the journal, and the marks of
    /// the sites and what they wait for, which are those of the graph after the journal.
    pub fn close(&self, alloc: Global) -> Result<Closed, NoMemory>
        requires { HaveHeardAll self.now }
        ensures { (G : Rules) (C : List (List Bool)) (M : Marks) → IsRight G C M self.now → IfOk result (λ closed. Closes G C M self.now closed) }
    {
        let history = self.journal.journal().copy(alloc)?;
        let marks = marks_of(alloc, &self.sites)?;
        Ok(Closed {
            opening: self.opening.copy(),
            history,
            marks: MarkList::new(marks),
            waits: first_waiting(&self.sites),
        })
    }

    // The journal node asks a site what it is to tell.
    fn ask_site(&mut self, site: SiteId, asked: Asked) -> Result<(), NoMemory>
        requires { IsCallEvent self.old (AskSite site asked) }
        ensures happened { OnOk result ((G : Rules) (C : List (List Bool)) (M : Marks) → IsRight G C M self.old → self.new ≡ calls G C self.old (AskSite site asked)) }
        ensures right { (G : Rules) (C : List (List Bool)) (M : Marks) → IsRight G C M self.old → IsRight G C M self.new }
        ensures kept { IsKept self.old self.new }
        ensures refused { OnErr result (self.new ≡ self.old) }
    {
        let question = self.journal.question(site, asked);
        self.questions.push(question)?;
        Ok(())
    }

    // The question with this number reaches its site, where there is one.
    fn deliver_question(&mut self, number: u64) -> Result<(), NoMemory>
        ensures happened { OnOk result ((G : Rules) (C : List (List Bool)) (M : Marks) → IsRight G C M self.old → self.new ≡ calls G C self.old (DeliverQuestion number)) }
        ensures right { (G : Rules) (C : List (List Bool)) (M : Marks) → IsRight G C M self.old → IsRight G C M self.new }
        ensures kept { IsKept self.old self.new }
        ensures refused { OnErr result (self.new ≡ self.old) }
    {
        let Some(question) = self.questions.get(number as usize) else {
            return Ok(());
        };
        if let Some(answer) = asked_site(&self.sites, question) {
            self.answers.push(answer)?;
        }
        Ok(())
    }

    // The answer with this number reaches the journal node, where there is one.
    fn deliver_answer(&mut self, number: u64)
        ensures happened { (G : Rules) (C : List (List Bool)) (M : Marks) → IsRight G C M self.old → self.new ≡ calls G C self.old (DeliverAnswer number) }
        ensures right { (G : Rules) (C : List (List Bool)) (M : Marks) → IsRight G C M self.old → IsRight G C M self.new }
        ensures kept { IsKept self.old self.new }
    {
        if let Some(answer) = self.answers.get(number as usize) {
            self.journal.hear(answer);
        }
    }

    // Whether the event can't happen.
    fn is_idle(&self, event: &WorldEvent) -> bool
        requires { IsEvent self.now event.now }
        ensures { (G : Rules) (C : List (List Bool)) → IsTrue result → happens G C self.now event.now ≡ self.now }
    {
        match event {
            WorldEvent::Propose { .. } => !self.journal.is_free(),
            WorldEvent::AskAgain => self.journal.ask().is_none(),
            WorldEvent::Item { site, index } => self.journal.stream(*site, *index).is_none(),
            WorldEvent::Deliver { message } => *message >= self.sent.len() as u64,
        }
    }
}

// The nodes of these sites, by number.
fn number_sites(alloc: Global, members: Vec<Site>) -> Result<Vec<SiteNode>, NoMemory>
    requires { length members.items ≤ 64 }
    ensures { IfOk result (λ nodes. AreNumbered members.items nodes.items) }
{
    let mut nodes = Vec::with_capacity(alloc, members.len())?;
    for member in members {
        let id = SiteId(nodes.len() as u16);
        nodes.push(SiteNode::new(id, member))?;
    }
    Ok(nodes)
}

// Makes an event happen at the journal and the sites, where these messages were sent, and gives what is sent then.
fn act(
    journal: &mut JournalNode,
    sites: &mut [SiteNode],
    sent: &[Packet],
    event: &WorldEvent,
) -> Option<Message>
    requires { MayHappen journal.old sites.old sent.now event.now }
    ensures { Happened journal.old sites.old sent.now event.now journal.new sites.new result }
{
    match event {
        WorldEvent::Propose {
            session,
            site,
            event,
        } => journal.propose(*session, *site, *event),
        WorldEvent::AskAgain => journal.ask(),
        WorldEvent::Item { site, index } => journal.stream(*site, *index),
        WorldEvent::Deliver { message } => deliver(journal, sites, sent, *message),
    }
}

// Delivers the message with this number, where there is one, and gives the answer.
fn deliver(
    journal: &mut JournalNode,
    sites: &mut [SiteNode],
    sent: &[Packet],
    number: u64,
) -> Option<Message>
    requires { MayHappen journal.old sites.old sent.now (WorldEvent.Deliver number) }
    ensures { Happened journal.old sites.old sent.now (WorldEvent.Deliver number) journal.new sites.new result }
{
    let packet = sent.get(number as usize)?;
    let message = packet.message();
    // The journal has no more entries than there may be, and so no more executions.
    let _entries = journal.journal();
    match &message {
        Message::Ask { site, .. } => reach(sites, *site, &message),
        Message::Vote { .. } => {
            journal.step(&message);
            None
        }
        Message::Apply { site, .. } => reach(sites, *site, &message),
    }
}

// Hands a message to a site, and gives the answer.
fn reach(sites: &mut [SiteNode], site: SiteId, message: &Message) -> Option<Message>
    requires site { site < length sites.old }
    requires message { (node : SiteState) → slice_get sites.old site ≡ Some node → SiteMayTake node message.now }
    ensures { Reached sites.old site message.now sites.new result }
{
    let node = &mut sites[usize::from(site.0)];
    node.step(message)
}

// What a site answers to a question.
fn asked_site(sites: &[SiteNode], question: &Question) -> Option<Answer>
    requires { question.now.site < length sites.now }
    ensures { (G : Rules) (S : List Bool) (M : Marks) (node : SiteState) → slice_get sites.now question.now.site ≡ Some node → StandsAt G S M node.site
        → result ≡ answered G S node question.now }
{
    sites[usize::from(question.site.0)].answer(question)
}

// The marks of the sites, in order.
fn marks_of(alloc: Global, nodes: &[SiteNode]) -> Result<Vec<SiteMark>, NoMemory>
    ensures { IfOk result (λ marks. marks.items ≡ map (λ (node : SiteState). node.site.mark) nodes.now) }
{
    let mut marks = Vec::with_capacity(alloc, nodes.len())?;
    for node in nodes {
        marks.push(node.site().mark())?;
    }
    Ok(marks)
}

// The least atom for which a site waits.
fn first_waiting(nodes: &[SiteNode]) -> Option<EventId>
    ensures { (G : Rules) (C : List (List Bool)) (M : Marks) → AllStand G C M (map (λ (node : SiteState). node.site) nodes.now)
        → result ≡ least G.atoms (waits_in C M) }
{
    let mut first = None;
    for node in nodes {
        first = EventId::lesser(first, node.site().first_waiting());
    }
    first
}
