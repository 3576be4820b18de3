use dcr_set::{EventId, SiteId};
use dcr_site::Site;
use dcr_wire::{Answer, Asked, Message, Question, Told};
use std::marker::Model;

/// The most executions of which a site can be told.
const MOST_HEARD: u32 = 200_000;

/// A site apart: its marks and its local rules, and of how many executions of its stream it has heard. It knows no graph
/// and no other node, and takes no memory. Contracts see it as `SiteState`.
#[derive(Drop)]
pub struct SiteNode {
    id: SiteId,
    count: u32,
    site: Site,
}

impl Model for SiteNode {
    ghost use Rattle.dcr_node.specs.SiteState.{SiteState};

    ghost Value = { SiteState };

    ghost use Rattle.dcr_node.specs.SiteNodeModel.{site_state_of};

    ghost view = { site_state_of };
}

impl SiteNode {
    ghost use Rattle.std.specs.Prelude.{◌≡◌, ◌↔◌, List, Bool, IsTrue, None, Some, if◌then◌else◌};
    ghost use Rattle.dcr_graph.specs.Rules.{Rules};
    ghost use Rattle.dcr_graph.specs.declared.marking.Marking.{Marking as Marks};
    ghost use Rattle.dcr_site.specs.Seen.{StandsAt};
    ghost use Rattle.dcr_node.specs.SiteState.{new_site, replied, told_at, answered, site_step, count_after, is_ready, SiteMayTake};

    /// The node of the site with this number, which has heard of nothing.
    pub fn new(id: SiteId, site: Site) -> SiteNode
        ensures { result ≡ new_site id site }
    {
        SiteNode { id, count: 0, site }
    }

    /// Of how many executions of its stream it has heard.
    pub fn count(&self) -> u32
        ensures { result ≡ self.now.count }
    {
        self.count
    }

    /// The site, with its marks.
    pub fn site(&self) -> &Site
        ensures { result.now ≡ self.now.site }
    {
        &self.site
    }

    /// Whether `step` may be handed the message: its numbers are in range. Of a message for another node nothing is asked.
    pub fn may_take(&self, message: &Message) -> bool
        ensures { IsTrue result ↔ SiteMayTake self.now message.now }
    {
        match message {
            Message::Ask { site, event, .. } => *site != self.id || event.0 < self.site.atoms(),
            Message::Vote { .. } => true,
            Message::Apply { site, index, event } => {
                *site != self.id || (self.site.hears(*event) && *index < MOST_HEARD)
            }
        }
    }

    /// Takes a message. A question for this site that was asked at its count is answered by its vote, from its own marks.
    /// An execution for this site whose index is its count is applied, and the count rises. All else changes nothing, and
    /// nothing else is answered.
    pub fn step(&mut self, message: &Message) -> Option<Message>
        requires { SiteMayTake self.old message.now }
        ensures id { self.new.id ≡ self.old.id }
        ensures projection { self.new.site.projection ≡ self.old.site.projection }
        ensures count { self.new.count ≡ count_after self.old message.now }
        ensures answered { (G : Rules) (S : List Bool) (M : Marks) → StandsAt G S M self.old.site → result ≡ replied G S self.old message.now }
        ensures stepped { (G : Rules) (S : List Bool) (M : Marks) → StandsAt G S M self.old.site → self.new ≡ site_step G S self.old message.now }
    {
        match message {
            Message::Ask {
                number,
                site,
                event,
                count,
            } => self.vote(*number, *site, *event, *count),
            Message::Vote { .. } => None,
            Message::Apply { site, index, event } => {
                self.hear(*site, *index, *event);
                None
            }
        }
    }

    /// Answers a question for this site that was asked at its count, by its own marks: its marks, which of its events may be
    /// executed, or the first for which it waits. Any other isn't answered. Any question may be handed in, and none changes
    /// the site. Takes no memory.
    pub fn answer(&self, question: &Question) -> Option<Answer>
        ensures { (G : Rules) (S : List Bool) (M : Marks) → StandsAt G S M self.now.site → result ≡ answered G S self.now question.now }
    {
        if !self.is_for(question.site, question.count) {
            return None;
        }
        Some(Answer {
            number: question.number,
            site: question.site,
            told: self.tell(&question.asked),
        })
    }

    // What the site tells that is asked.
    fn tell(&self, asked: &Asked) -> Told
        ensures { (G : Rules) (S : List Bool) (M : Marks) → StandsAt G S M self.now.site → result ≡ told_at G S self.now.site.mark asked.now }
    {
        match asked {
            Asked::Marks => Told::Marks(self.site.mark()),
            Asked::Can => Told::Can(self.site.can()),
            Asked::Waits => Told::Waits(self.site.first_waiting()),
        }
    }

    // Whether a message is for this site, and for just as many executions as it has heard of.
    fn is_for(&self, site: SiteId, count: u32) -> bool
        ensures { result ≡ is_ready self.now site count }
    {
        site == self.id && count == self.count
    }

    // The vote on an event, where the question is for this site and was asked at its count.
    fn vote(&self, number: u32, site: SiteId, event: EventId, count: u32) -> Option<Message>
        requires { SiteMayTake self.now (Message.Ask number site event count) }
        ensures { (G : Rules) (S : List Bool) (M : Marks) → StandsAt G S M self.now.site
            → result ≡ replied G S self.now (Message.Ask number site event count) }
    {
        if !self.is_for(site, count) {
            return None;
        }
        let atoms = self.site.atoms();
        prove!(event.0 < atoms);
        let decision = self.site.decide(event);
        Some(Message::Vote {
            number,
            site,
            decision,
        })
    }

    // Applies an execution, where it is told to this site and its index is the count.
    fn hear(&mut self, site: SiteId, index: u32, event: EventId)
        requires { SiteMayTake self.old (Message.Apply site index event) }
        ensures id { self.new.id ≡ self.old.id }
        ensures projection { self.new.site.projection ≡ self.old.site.projection }
        ensures count { self.new.count ≡ count_after self.old (Message.Apply site index event) }
        ensures stepped { (G : Rules) (S : List Bool) (M : Marks) → StandsAt G S M self.old.site
            → self.new ≡ site_step G S self.old (Message.Apply site index event) }
    {
        if self.is_for(site, index) {
            self.site.apply(event);
            self.count += 1;
        }
    }
}
