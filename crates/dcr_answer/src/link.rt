ghost use Rattle.std.specs.Prelude.{◌≡◌, List, Bool};
ghost use Rattle.dcr_graph.specs.Rules.{Rules};
ghost use Rattle.dcr_graph.specs.declared.marking.Marking.{Marking as Marks};
ghost use Rattle.dcr_site.specs.Seen.{StandsAt};
ghost use Rattle.dcr_answer.specs.Greeted.{AnswersBy, ReadsChallenge};

use crate::telling::send;
use crate::{AnswerEnd, answer_asks};
use dcr_base::{Link, Source};
use dcr_greet::{Challenge, Hello, Key};
use dcr_node::SiteNode;
use dcr_porter::{Unfilled, fill};
use dcr_set::SiteId;

/// Answers over a link as the site of this number in the case with this digest, whose node this is: reads a challenge, sends
/// the hello to it, by the key where there is one, and then answers what it is asked, as `answer_asks` does, until the link ends
/// or fails, or something comes that is none of that. Nothing is written before the challenge has come whole, and nothing that
/// wasn't asked for. Takes no memory. The node is let go at the end.
pub fn answer_link<L: Link>(
    node: SiteNode,
    site: SiteId,
    digest: &[u8; 32],
    key: &Option<Key>,
    link: &mut L,
) -> AnswerEnd
    ensures { (G : Rules) (S : List Bool) (M : Marks) → StandsAt G S M node.site
        → AnswersBy G S node site digest.now key.now (L.has_ended link.new) (L.gives link.old) (L.gives link.new) (L.takes link.old) (L.takes link.new) result }
{
    match read_challenge(link) {
        Err(end) => end,
        Ok(challenge) => {
            match send(link, &Hello::new(&challenge, site, digest, key).text()) {
                Some(end) => end,
                None => answer_asks(node, link),
            }
        }
    }
}

// The challenge in the next 44 bytes, or why there is none. No byte behind it is read.
fn read_challenge<S: Source>(source: &mut S) -> Result<Challenge, AnswerEnd>
    ensures read { ReadsChallenge (S.has_ended source.new) (S.gives source.old) (S.gives source.new) result }
    ensures apart { S.sink_side source.new ≡ S.sink_side source.old }
{
    let mut bytes = [0; 44];
    match fill(source, &mut bytes) {
        Ok(()) => {}
        Err(Unfilled::Ended { read: 0 }) => return Err(AnswerEnd::Ended),
        Err(Unfilled::Ended { .. }) => return Err(AnswerEnd::Torn),
        Err(Unfilled::Failed { .. }) => return Err(AnswerEnd::LinkFault),
    }
    match Challenge::read(&bytes) {
        Some(challenge) => Ok(challenge),
        None => Err(AnswerEnd::NotOurs),
    }
}
