ghost use Rattle.std.specs.Prelude.{◌≡◌, ◌⊎◌, Ok, None};
ghost use Rattle.dcr_app.specs.Outside.{CountsWhere};
ghost use Rattle.dcr_base.specs.Count.{CountsFault};
ghost use Rattle.dcr_base.specs.Door.{GivesNext};
ghost use Rattle.dcr_base.specs.Link.{links_of};
ghost use Rattle.dcr_part.specs.PartOf.{IsPartOf};
ghost use Rattle.dcr_part.specs.Whole.{Whole, IsWhole, part_text};
ghost use Rattle.dcr_apart.specs.Served.{HasServedLinks, IsServed};

use crate::SiteEnd;
use crate::counting_link::CountingLink;
use crate::pauses::Pauses;
use dcr_answer::answer_link;
use dcr_base::{Failed, Link, Status};
use dcr_greet::Key;
use dcr_node::SiteNode;
use dcr_part::{Part, read_part};
use dcr_porter::{Brought, Porter};
use std::alloc::Global;
use std::sync::Wait;
use std::time::Clock;

/// Serves each link that the porter brings, by a site of the part whose text this is, begun anew for each, until the porter is
/// shut or has failed.
pub(crate) fn serve<P: Porter, R: Wait + Clock>(
    rt: &R,
    alloc: Global,
    bytes: &[u8],
    key: &Option<Key>,
    porter: P,
) -> SiteEnd<P>
    ensures served { (W : Whole) → IsWhole W → bytes.now ≡ part_text W → HasServedLinks P.tells W key.now porter result.porter }
    ensures ends { ((result.status ≡ Status.Done) × P.tells.is_shut result.porter) ⊎ (result.status ≡ Status.DoorFault) }
    ensures faults { CountsWhere (result.status ≡ Status.DoorFault) (P.tells.faults porter) (P.tells.faults result.porter) }
{
    let mut porter = porter;
    let mut pauses = Pauses::new();
    for number in 0..u64::MAX {
        let part = begun_anew(rt, alloc, bytes, &mut pauses);
        match next_link(rt, &mut porter, &mut pauses) {
            Ok(Some(link)) => {
                let (rest, has_answered) = answer(part, key, link);
                porter.take_back(number, rest);
                if has_answered {
                    pauses.begin_again();
                } else {
                    pauses.wait(rt);
                }
            }
            Ok(None) => {
                return SiteEnd {
                    status: Status::Done,
                    porter,
                };
            }
            Err(Failed) => {
                return SiteEnd {
                    status: Status::DoorFault,
                    porter,
                };
            }
        }
    }
    // No run serves so many.
    for _ in rt.forever() {}
    unreachable!()
}

// The part whose text this is, with its site at the opening. It waits where memory can't be had, so that no link is taken that
// can't be answered.
fn begun_anew<R: Wait + Clock>(rt: &R, alloc: Global, bytes: &[u8], pauses: &mut Pauses) -> Part
    ensures { (W : Whole) → IsWhole W → bytes.now ≡ part_text W → IsPartOf W result }
{
    for _ in rt.forever() {
        match read_part(alloc, bytes) {
            Ok(part) => return part,
            Err(_) => pauses.wait(rt),
        }
    }
    unreachable!()
}

// The next link, for which it waits. None where the porter is shut.
fn next_link<P: Porter, R: Wait + Clock>(
    rt: &R,
    porter: &mut P,
    pauses: &mut Pauses,
) -> Result<Option<P::Link>, Failed>
    ensures given { GivesNext (P.tells.links porter.old) (P.tells.links porter.new) result }
    ensures shuts { result ≡ Ok None → P.tells.is_shut porter.new }
    ensures back { P.tells.back porter.new ≡ P.tells.back porter.old }
    ensures counts { CountsFault result (P.tells.faults porter.old) (P.tells.faults porter.new) }
{
    for _ in rt.forever() {
        match porter.next() {
            Ok(Brought::Link(link)) => return Ok(Some(link)),
            Ok(Brought::Nobody) => pauses.wait(rt),
            Ok(Brought::Shut) => return Ok(None),
            Err(Failed) => return Err(Failed),
        }
    }
    unreachable!()
}

// Answers over a link as the site of this part, and ends it; also whether anything was answered behind the hello.
fn answer<L: Link>(part: Part, key: &Option<Key>, link: L) -> (L::Rest, bool)
    ensures { (W : Whole) → IsPartOf W part → IsServed W key.now (links_of L.gives L.takes L.Rest.unread L.Rest.sent) link result.0 }
{
    let Part {
        head,
        names: _names,
        site,
    } = part;
    let node = SiteNode::new(head.site, site);
    let mut link = CountingLink::new(link);
    let _end = answer_link(node, head.site, &head.digest, key, &mut link);
    let has_answered = link.has_answered();
    (link.finish(), has_answered)
}
