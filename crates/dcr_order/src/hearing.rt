use crate::ordering::Ordering;
use crate::place::Place;
use dcr_porter::Porter;
use dcr_set::SiteId;
use dcr_wire::{Answer, Message, Question};

impl<D, P: Porter, N> Ordering<D, P, N> {
    ghost use Rattle.std.specs.Prelude.{◌≡◌, ◌<◌, length, IfSome, IfNone};
    ghost use Rattle.dcr_base.specs.Link.{links_of};
    ghost use Rattle.dcr_wire.specs.Laws.{sent_message, sent_question, sent_answer};
    ghost use Rattle.dcr_seat.specs.Asking.{IsAnswerTo, IsVote};
    ghost use Rattle.dcr_order.specs.Going.{Answers, Ends};
    ghost use Rattle.dcr_order.specs.Linked.{HaveRoomToTell};

    /// Asks a site for its vote on the execution that is out. None where it is away then: it was before, or its link failed or
    /// gave something else, and was ended.
    pub(crate) fn vote(&mut self, i: SiteId, ask: &Message) -> Option<Message>
        requires site { i < length self.old.node.alphabets }
        requires places { HaveRoomToTell self.old.node self.old.places.items }
        ensures node { self.new.node ≡ self.old.node }
        ensures store { self.new.store ≡ self.old.store }
        ensures many { length self.new.places.items ≡ length self.old.places.items }
        ensures given { self.new.given ≡ self.old.given }
        ensures links { P.tells.links self.new.porter ≡ P.tells.links self.old.porter }
        ensures faults { P.tells.faults self.new.porter ≡ P.tells.faults self.old.porter }
        ensures vote { IfSome result (IsVote self.old.node i) }
        ensures answers { IfSome result (λ vote. Answers (links_of P.Link.gives P.Link.takes P.Link.Rest.unread P.Link.Rest.sent) self.old.node i (sent_message ask.now) (sent_message vote)
            self.old.places.items self.new.places.items × (self.new.porter ≡ self.old.porter)) }
        ensures ended { IfNone result (Ends (links_of P.Link.gives P.Link.takes P.Link.Rest.unread P.Link.Rest.sent) i self.old.places.items self.new.places.items
            (P.tells.back self.old.porter) (P.tells.back self.new.porter)) }
    {
        let node = &self.node;
        let vote = match &mut self.places[usize::from(i.0)] {
            Place::Away => None,
            Place::Here(seat) => seat.voted(node, i, ask),
        };
        if vote.is_none() {
            self.end(i);
        }
        vote
    }

    /// Asks a site by a question. None where it is away then, as of `vote`.
    pub(crate) fn answer(&mut self, i: SiteId, question: &Question) -> Option<Answer>
        requires site { i < length self.old.node.alphabets }
        requires places { HaveRoomToTell self.old.node self.old.places.items }
        ensures node { self.new.node ≡ self.old.node }
        ensures store { self.new.store ≡ self.old.store }
        ensures many { length self.new.places.items ≡ length self.old.places.items }
        ensures given { self.new.given ≡ self.old.given }
        ensures links { P.tells.links self.new.porter ≡ P.tells.links self.old.porter }
        ensures faults { P.tells.faults self.new.porter ≡ P.tells.faults self.old.porter }
        ensures answer { IfSome result (IsAnswerTo self.old.node question.now) }
        ensures answers { IfSome result (λ answer. Answers (links_of P.Link.gives P.Link.takes P.Link.Rest.unread P.Link.Rest.sent) self.old.node i (sent_question question.now) (sent_answer answer)
            self.old.places.items self.new.places.items × (self.new.porter ≡ self.old.porter)) }
        ensures ended { IfNone result (Ends (links_of P.Link.gives P.Link.takes P.Link.Rest.unread P.Link.Rest.sent) i self.old.places.items self.new.places.items
            (P.tells.back self.old.porter) (P.tells.back self.new.porter)) }
    {
        let node = &self.node;
        let answer = match &mut self.places[usize::from(i.0)] {
            Place::Away => None,
            Place::Here(seat) => seat.answered(node, i, question),
        };
        if answer.is_none() {
            self.end(i);
        }
        answer
    }
}
