ghost use Rattle.std.specs.Prelude.{◌≡◌, ◌<◌, ◌≤◌, ◌==◌, length, IfOk, None, Some, if◌then◌else◌};
ghost use Rattle.dcr_proj.specs.CoverValue.{atoms_of};
ghost use Rattle.dcr_proj.specs.NetworkValue.{IsNetwork};
ghost use Rattle.dcr_journal.specs.Answer.{outcome_decided};
ghost use Rattle.dcr_site.specs.declared.site.Decision.TheVariants.{Enabled};
ghost use Rattle.dcr_node.specs.Gathering.{nothing_gathered};
ghost use Rattle.dcr_node.specs.JournalState.{asks_of};
ghost use Rattle.dcr_node.specs.Streams.{new_streams, HaveRoom, AreTold};

use crate::gathered::{Gathered, forget, waits_of_all};
use crate::stream::Stream;
use dcr_graph::Cause;
use dcr_journal::{Call, Journal, Outcome};
use dcr_proj::Network;
use dcr_set::{EventId, EventSet, NoMemory, SiteId};
use dcr_site::Decision;
use dcr_wire::{Answer, Asked, Message, Question, Told};
use std::alloc::Global;
use std::marker::Model;

/// The most sessions of a journal node: those of a case or a serving, 1,024 at most, and one more for what was done before.
pub const MOST_SESSIONS: u32 = 1_025;

/// A call that a session proposed, and that has no entry yet.
#[derive(Clone, Copy, Debug, PartialEq, Eq)]
pub struct Proposal {
    pub session: u32,
    pub call: Call,
}

/// An execution that a session proposed, and that has no entry yet.
#[derive(Clone, Copy)]
pub(crate) struct Execution {
    pub(crate) session: u32,
    pub(crate) site: SiteId,
    pub(crate) event: EventId,
}

/// The journal apart: it orders the calls, asks the sites what they decide and what they tell, and keeps for each site the
/// stream of the executions that the site takes part in. It has no relation, and no mark but what sites told, and all its
/// memory is taken when it is opened. Contracts see it as `JournalState`.
#[derive(Drop)]
pub struct JournalNode {
    network: Network,
    journal: Journal,
    // How many entries each session has.
    made: Vec<u32>,
    // The stream of each site.
    streams: Vec<Stream>,
    out: Option<Proposal>,
    // What each site told, where all are asked.
    gathered: Vec<Gathered>,
}

impl Model for JournalNode {
    ghost use Rattle.dcr_node.specs.JournalState.{JournalState};

    ghost Value = { JournalState };

    ghost use Rattle.dcr_node.specs.JournalNodeModel.{journal_state_of, IsJournalNode};

    ghost view = { journal_state_of };

    ghost invariant = { IsJournalNode };
}

impl JournalNode {
    ghost use Rattle.std.specs.Prelude.{◌≡◌, ◌<◌, ◌≤◌, ◌↔◌, length, IfOk, IsTrue, None, Some, slice_get, true};
    ghost use Rattle.dcr_node.specs.Gathering.{gathering, waits_told};
    ghost use Rattle.dcr_node.specs.declared.journal_node.TheConstants.{MOST_SESSIONS};
    ghost use Rattle.dcr_node.specs.JournalState.{new_journal, execution, with_out, withdrawn, proposed, question_of, question, question_at, question_for, item, stream_of, journal_step, is_free, execution_out, voted, with_entry, with_gathered, with_verdict, told_to, told_out, answered_to, entry_of, IsWithin, IsOver, IsProposal, JournalMayTake, JournalMayHear};
    ghost use Rattle.dcr_journal.specs.Run.{event_done};
    ghost use Rattle.dcr_proj.specs.CoverValue.{atoms_of};

    /// The journal of these sites, with room for so many entries, so many sessions, `MOST_SESSIONS` at most, and nothing
    /// proposed.
    pub fn open(
        alloc: Global,
        network: &Network,
        sites: u16,
        sessions: u32,
        capacity: u32,
    ) -> Result<JournalNode, NoMemory>
        requires sites { sites ≡ length network.now }
        requires sessions { sessions ≤ MOST_SESSIONS }
        requires capacity { capacity ≤ 200000 }
        ensures { IfOk result (λ node. node ≡ new_journal network.now sessions capacity) }
    {
        let network = copy_network(alloc, network)?;
        let journal = Journal::open(alloc, capacity)?;
        let made = vec![in alloc; 0u32; sessions as usize]?;
        let streams = open_streams(alloc, sites, capacity)?;
        let gathered = open_gathered(alloc, sites)?;
        Ok(JournalNode {
            network,
            journal,
            made,
            streams,
            out: None,
            gathered,
        })
    }

    /// Takes a session's proposal to execute an event at a site, and gives the question for the site. None exactly where
    /// a proposal is out or the journal is full; then nothing changes. Takes no memory.
    pub fn propose(&mut self, session: u32, site: SiteId, event: EventId) -> Option<Message>
        requires { IsProposal self.old (execution session site event) }
        ensures state { self.new ≡ proposed self.old (execution session site event) }
        ensures asked { result ≡ question_of self.old (execution session site event) }
    {
        if !self.is_free() {
            return None;
        }
        self.put_out(&Proposal {
            session,
            call: Call::Exec(site, event),
        });
        self.ask()
    }

    /// Takes a session's proposal of any call. What it asks is told by `ask` for an execution, and by `asks` for the
    /// others. False exactly where a proposal is out or the journal is full; then nothing changes. Takes no memory.
    pub fn propose_call(&mut self, session: u32, call: &Call) -> bool
        requires { IsProposal self.old (record { session = session; call = call.now }) }
        ensures state { self.new ≡ proposed self.old (record { session = session; call = call.now }) }
        ensures taken { result ≡ is_free self.old }
    {
        if !self.is_free() {
            return false;
        }
        self.put_out(&Proposal {
            session,
            call: *call,
        });
        true
    }

    /// Takes back the call that is out, where one is, and forgets what sites told. The entries and the streams stay, so the
    /// next proposal has its number: a vote on an execution that was taken back must not be handed in any more, since it
    /// would be taken for one on the next. Takes no memory.
    pub fn withdraw(&mut self)
        ensures { self.new ≡ withdrawn self.old }
    {
        self.out = None;
        let gathered = &mut self.gathered;
        forget(gathered);
    }

    /// Whether `step` may be handed the message: a vote's numbers are in range. Of other messages nothing is asked.
    pub fn may_take(&self, message: &Message) -> bool
        ensures { IsTrue result ↔ JournalMayTake self.now message.now }
    {
        match message {
            Message::Ask { .. } => true,
            Message::Vote { site, decision, .. } => {
                site.0 < self.sites() && self.has_cause(decision)
            }
            Message::Apply { .. } => true,
        }
    }

    /// Takes a message. A vote with the number and the site of the execution that is out becomes its entry, and nothing is
    /// out then; where the event is enabled, the execution is done and goes into the streams of the sites that take part
    /// in it. All else changes nothing. Takes no memory.
    pub fn step(&mut self, message: &Message)
        requires { JournalMayTake self.old message.now }
        ensures { self.new ≡ journal_step self.old message.now }
    {
        match message {
            Message::Ask { .. } => {}
            Message::Vote {
                number,
                site,
                decision,
            } => self.vote(*number, *site, decision),
            Message::Apply { .. } => {}
        }
    }

    /// The question of the execution that is out, once more. None exactly where none is out.
    pub fn ask(&self) -> Option<Message>
        ensures { result ≡ question self.now }
    {
        match self.execution() {
            None => None,
            Some(p) => Some(Message::Ask {
                number: self.journal.len(),
                site: p.site,
                event: p.event,
                count: self.stream_len(p.site),
            }),
        }
    }

    /// The question to a site what it is to tell, once it has heard of its whole stream. It can be asked at any time; with
    /// nothing out it is the end of a run that is asked for.
    pub fn question(&self, site: SiteId, asked: Asked) -> Question
        requires { site < length self.now.alphabets }
        ensures { result ≡ question_at self.now site asked }
    {
        Question {
            number: self.journal.len(),
            site,
            asked,
            count: self.stream_len(site),
        }
    }

    /// The question that the call that is out asks a site: a look and an `enabled` ask their own, and `accepting` asks every
    /// site. None exactly where nothing is asked of it.
    pub fn asks(&self, site: SiteId) -> Option<Question>
        requires { site < length self.now.alphabets }
        ensures { result ≡ question_for self.now site }
    {
        match &self.out {
            None => None,
            Some(p) => match asks_of(&p.call, site) {
                None => None,
                Some(asked) => Some(self.question(site, asked)),
            },
        }
    }

    /// Whether `hear` may be handed the answer: its site is one, its sets are over the atoms, and its event is an atom.
    pub fn may_hear(&self, answer: &Answer) -> bool
        ensures { IsTrue result ↔ JournalMayHear self.now answer.now }
    {
        answer.site.0 < self.sites() && self.is_over(&answer.told)
    }

    /// Takes an answer. Where its number is that of the entries, what it tells is taken in: a look and an `enabled` that
    /// are out have their entry by the answer of their site; `accepting` has it once every site has told what it waits for,
    /// of which the least is the verdict; with nothing out it is gathered for the end. All else changes nothing. Takes no
    /// memory.
    pub fn hear(&mut self, answer: &Answer)
        requires { JournalMayHear self.old answer.now }
        ensures { self.new ≡ answered_to self.old answer.now }
    {
        if answer.number == self.journal.len() {
            self.told(answer.site, &answer.told);
        }
    }

    /// What a site told for the end, since the last proposal and the last entry.
    pub fn gathered(&self, site: SiteId) -> &Gathered
        requires { site < length self.now.alphabets }
        ensures { slice_get self.now.gathered site ≡ Some result.now }
    {
        &self.gathered[usize::from(site.0)]
    }

    /// The least event for which a site waits, of what the sites told for the end. None exactly where a site has not told.
    pub fn waits_told(&self) -> Option<Option<EventId>>
        ensures { result ≡ waits_told self.now.gathered }
    {
        waits_of_all(&self.gathered)
    }

    /// The execution with an index in a site's stream, from 0. None exactly where the index is not below its length.
    pub fn stream(&self, site: SiteId, index: u32) -> Option<Message>
        requires { site < length self.now.alphabets }
        ensures { result ≡ item self.now site index }
    {
        match self.streams[usize::from(site.0)].get(index) {
            None => None,
            Some(event) => Some(Message::Apply { site, index, event }),
        }
    }

    /// How many executions a site's stream has.
    pub fn stream_len(&self, site: SiteId) -> u32
        requires { site < length self.now.alphabets }
        ensures { result ≡ length (stream_of self.now site) }
    {
        self.streams[usize::from(site.0)].len()
    }

    /// The entries in their one order.
    pub fn journal(&self) -> &Journal
        ensures journal { result.now ≡ self.now.history }
        ensures within { length self.now.history.entries ≤ self.now.history.capacity }
        ensures most { self.now.history.capacity ≤ 200000 }
    {
        &self.journal
    }

    /// How many sites there are.
    pub(crate) fn sites(&self) -> u16
        ensures sites { result ≡ length self.now.alphabets }
        ensures some_site { 0 < length self.now.alphabets }
    {
        self.network.sites()
    }

    /// Whether a proposal may be made: none is out, and there is room for its entry.
    pub(crate) fn is_free(&self) -> bool
        ensures { result ≡ is_free self.now }
    {
        self.out.is_none() && self.journal.spare() > 0
    }

    // How many atoms there are.
    fn atoms(&self) -> u16
        ensures { result ≡ atoms_of self.now.alphabets }
    {
        self.network.alphabet(SiteId(0)).room()
    }

    // Whether the event of the decision's cause is an atom, where it has one.
    fn has_cause(&self, decision: &Decision) -> bool
        ensures { IsTrue result ↔ IsWithin (atoms_of self.now.alphabets) decision.now }
    {
        match decision {
            Decision::NotHere => true,
            Decision::Blocked(Cause::Excluded) => true,
            Decision::Blocked(Cause::Condition(c)) => c.0 < self.atoms(),
            Decision::Blocked(Cause::Milestone(m)) => m.0 < self.atoms(),
            Decision::Enabled => true,
        }
    }

    // Whether what was told is over the atoms.
    fn is_over(&self, told: &Told) -> bool
        ensures { IsTrue result ↔ IsOver (atoms_of self.now.alphabets) told.now }
    {
        match told {
            Told::Marks(mark) => {
                self.has_room(&mark.executed)
                    && self.has_room(&mark.pending)
                    && self.has_room(&mark.included)
            }
            Told::Can(events) => self.has_room(events),
            Told::Waits(None) => true,
            Told::Waits(Some(e)) => e.0 < self.atoms(),
        }
    }

    // Whether the room of a set is the number of atoms.
    fn has_room(&self, events: &EventSet) -> bool
        ensures { IsTrue result ↔ (length events.now ≡ atoms_of self.now.alphabets) }
    {
        events.room() == self.atoms()
    }

    // A call is proposed, of which nothing was told.
    fn put_out(&mut self, p: &Proposal)
        requires free { is_free self.old ≡ true }
        requires proposal { IsProposal self.old p.now }
        ensures { self.new ≡ with_out self.old p.now }
    {
        forget(&mut self.gathered);
        self.out = Some(*p);
    }

    // The execution that is out, where one is.
    fn execution(&self) -> Option<Execution>
        ensures { result ≡ execution_out self.now }
    {
        match &self.out {
            None => None,
            Some(p) => match &p.call {
                Call::Exec(site, event) => Some(Execution {
                    session: p.session,
                    site: *site,
                    event: *event,
                }),
                Call::Look(_) => None,
                Call::Enabled(_) => None,
                Call::Accepting => None,
            },
        }
    }

    // A vote of this number and this site becomes the entry of the execution that is out, where they are its own.
    fn vote(&mut self, number: u32, site: SiteId, decision: &Decision)
        ensures { self.new ≡ voted self.old number site decision.now (execution_out self.old) }
    {
        let Some(p) = self.execution() else {
            return;
        };
        if number == self.journal.len() && site == p.site {
            self.enter(&p, decision);
        }
    }

    // Takes in what a site told after all entries.
    fn told(&mut self, site: SiteId, told: &Told)
        requires { site < length self.old.alphabets }
        ensures { self.new ≡ told_out self.old site told.now self.old.out }
    {
        let Some(p) = self.out else {
            self.gather(site, told);
            return;
        };
        match &p.call {
            Call::Exec(_, _) => {}
            Call::Look(asked) => self.told_look(&p, *asked, site, told),
            Call::Enabled(asked) => self.told_enabled(&p, *asked, site, told),
            Call::Accepting => self.told_waits(&p, site, told),
        }
    }

    // Keeps what a site told, beside what others told.
    fn gather(&mut self, site: SiteId, told: &Told)
        requires { site < length self.old.alphabets }
        ensures { self.new ≡ with_gathered self.old (gathering self.old.gathered site told.now) }
    {
        let gathered = &mut self.gathered[usize::from(site.0)];
        gathered.take(told);
    }

    // The look at a site that is out has its entry, where that site told its marks.
    fn told_look(&mut self, p: &Proposal, asked: SiteId, site: SiteId, told: &Told)
        requires out { self.old.out ≡ Some p.now }
        requires call { p.now.call ≡ Call.Look asked }
        ensures { self.new ≡ told_to self.old p.now site (Call.Look asked) told.now }
    {
        match told {
            Told::Marks(mark) => {
                if site == asked {
                    self.enter_answer(p, &Outcome::Marks(mark.copy()));
                }
            }
            Told::Can(_) => {}
            Told::Waits(_) => {}
        }
    }

    // The question what is enabled at a site that is out has its entry, where that site told it.
    fn told_enabled(&mut self, p: &Proposal, asked: SiteId, site: SiteId, told: &Told)
        requires out { self.old.out ≡ Some p.now }
        requires call { p.now.call ≡ Call.Enabled asked }
        ensures { self.new ≡ told_to self.old p.now site (Call.Enabled asked) told.now }
    {
        match told {
            Told::Marks(_) => {}
            Told::Can(events) => {
                if site == asked {
                    self.enter_answer(p, &Outcome::Can(events.copy()));
                }
            }
            Told::Waits(_) => {}
        }
    }

    // The question whether the marking is accepting that is out has its entry, once each site told what it waits for.
    fn told_waits(&mut self, p: &Proposal, site: SiteId, told: &Told)
        requires out { self.old.out ≡ Some p.now }
        requires call { p.now.call ≡ Call.Accepting }
        requires site { site < length self.old.alphabets }
        ensures { self.new ≡ told_to self.old p.now site Call.Accepting told.now }
    {
        match told {
            Told::Marks(_) => {}
            Told::Can(_) => {}
            Told::Waits(_) => {
                self.gather(site, told);
                self.conclude(p);
            }
        }
    }

    // The question whether the marking is accepting has its entry, where each site told.
    fn conclude(&mut self, p: &Proposal)
        requires out { self.old.out ≡ Some p.now }
        requires call { p.now.call ≡ Call.Accepting }
        ensures { self.new ≡ with_verdict self.old p.now (waits_told self.old.gathered) }
    {
        match waits_of_all(&self.gathered) {
            None => {}
            Some(waits) => self.enter_answer(p, &Outcome::verdict(waits)),
        }
    }

    // The call that is out becomes an entry that does nothing to the streams.
    fn enter_answer(&mut self, p: &Proposal, outcome: &Outcome)
        requires out { self.old.out ≡ Some p.now }
        requires quiet { event_done p.now.call outcome.now ≡ None }
        ensures { self.new ≡ with_entry self.old (entry_of self.old p.now outcome.now) }
    {
        let made = &mut self.made[p.session as usize];
        let seq = *made;
        *made = seq + 1;
        self.journal.push_call(p.session, seq, &p.call, outcome);
        forget(&mut self.gathered);
        self.out = None;
    }

    // The execution that is out becomes an entry, as was decided of it.
    fn enter(&mut self, p: &Execution, decision: &Decision)
        requires { self.old.out ≡ Some (execution p.now.session p.now.site p.now.event) }
        ensures { self.new ≡ with_entry self.old (entry_of self.old (execution p.now.session p.now.site p.now.event) (outcome_decided decision.now)) }
    {
        let made = &mut self.made[p.session as usize];
        let seq = *made;
        *made = seq + 1;
        let outcome = outcome_of(decision);
        self.journal
            .push_call(p.session, seq, &Call::Exec(p.site, p.event), &outcome);
        tell(&mut self.streams, &self.network, p.event, decision);
        forget(&mut self.gathered);
        self.out = None;
    }
}

// What an execution is answered of which this was decided.
fn outcome_of(decision: &Decision) -> Outcome
    ensures { result ≡ outcome_decided decision.now }
{
    Outcome::of_decision(*decision)
}

// The same network again, with memory of its own.
fn copy_network(alloc: Global, network: &Network) -> Result<Network, NoMemory>
    ensures copy { IfOk result (λ copy. copy ≡ network.now) }
    ensures network { IsNetwork network.now }
{
    let sites = network.sites();
    let mut alphabets = Vec::with_capacity(alloc, usize::from(sites))?;
    for number in 0..sites {
        let alphabet = network.alphabet(SiteId(number)).copy();
        alphabets.push(alphabet)?;
    }
    Network::new(alloc, alphabets)
}

// So many empty streams, each with room for so many events.
fn open_streams(alloc: Global, sites: u16, room: u32) -> Result<Vec<Stream>, NoMemory>
    requires { room ≤ 200000 }
    ensures { IfOk result (λ streams. streams.items ≡ new_streams sites room) }
{
    let mut streams = Vec::with_capacity(alloc, usize::from(sites))?;
    for _number in 0..sites {
        let stream = Stream::open(alloc, room)?;
        streams.push(stream)?;
    }
    Ok(streams)
}

// So many sites that told nothing.
fn open_gathered(alloc: Global, sites: u16) -> Result<Vec<Gathered>, NoMemory>
    ensures { IfOk result (λ gathered. gathered.items ≡ nothing_gathered sites) }
{
    let mut gathered = Vec::with_capacity(alloc, usize::from(sites))?;
    for _number in 0..sites {
        gathered.push(Gathered::nothing())?;
    }
    Ok(gathered)
}

// What a call asks a site to tell.
fn asks_of(call: &Call, site: SiteId) -> Option<Asked>
    ensures { result ≡ asks_of call.now site }
{
    match call {
        Call::Exec(_, _) => None,
        Call::Look(asked) => asked_there(site, *asked, Asked::Marks),
        Call::Enabled(asked) => asked_there(site, *asked, Asked::Can),
        Call::Accepting => Some(Asked::Waits),
    }
}

// What is asked, where the site is the one that is asked.
fn asked_there(site: SiteId, asked: SiteId, what: Asked) -> Option<Asked>
    ensures { result ≡ (if site == asked then Some what else None) }
{
    if site == asked { Some(what) } else { None }
}

// Adds an execution that was enabled to the streams of the sites that take part in it, and no other to any.
fn tell(streams: &mut [Stream], network: &Network, e: EventId, decision: &Decision)
    requires as_many { length streams.old ≡ length network.now }
    requires event { e < atoms_of network.now }
    requires rooms { HaveRoom streams.old }
    ensures { AreTold network.now e decision.now streams.old streams.new }
{
    match decision {
        Decision::NotHere => {}
        Decision::Blocked(_) => {}
        Decision::Enabled => tell_each(streams, network, e),
    }
}

// Adds an event to the streams of the sites that take part in it.
fn tell_each(streams: &mut [Stream], network: &Network, e: EventId)
    requires as_many { length streams.old ≡ length network.now }
    requires event { e < atoms_of network.now }
    requires rooms { HaveRoom streams.old }
    ensures { AreTold network.now e Enabled streams.old streams.new }
{
    let participants = network.participants(e);
    for participant in participants {
        let stream = &mut streams[usize::from(participant.0)];
        stream.push(e);
    }
}
