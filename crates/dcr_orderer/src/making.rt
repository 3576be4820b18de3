ghost use Rattle.std.specs.Prelude.{◌≡◌, [], IfOk, IfErr};
ghost use Rattle.dcr_base.specs.Link.{links_of};
ghost use Rattle.dcr_cell.specs.ClusterId.{IsCall};
ghost use Rattle.dcr_turn.specs.PassValue.{HasMadeAll};
ghost use Rattle.dcr_order.specs.Giving.{HasGiven};
ghost use Rattle.dcr_order.specs.Orders.{HasRoomAfter, IsNamedApart, IsOrdering};
ghost use Rattle.dcr_orderer.specs.Making.{EnteredAfter, UnmadeAfter};

use crate::Unmade;
use dcr_base::{Disk, Link};
use dcr_cell::StoreName;
use dcr_cluster::Halt;
use dcr_journal::{Call, Outcome};
use dcr_order::{Ordering, PorterName};
use dcr_porter::Porter;
use dcr_turn::{Pass, TurnGuard};

/// Makes the one entry of a call of a session that has been met.
pub(crate) fn make<
    D: Disk,
    P: Porter,
    N: StoreName<D> + PorterName<P::Link, <P::Link as Link>::Rest>,
>(
    guard: &mut TurnGuard<'_, Ordering<D, P, N>, N>,
    pass: &mut Pass<N>,
    call: &Call,
) -> Result<Outcome, Unmade>
    requires call { IsCall N.cluster call.now }
    requires named { IsNamedApart N.cluster N.turn }
    requires room { HasRoomAfter N.cluster N.capacity }
    requires none { guard.old.enlisted ≡ [] }
    requires met { pass.old.front ≡ guard.old.entries }
    requires seen { HasMadeAll pass.old guard.old.entries }
    requires given { HasGiven N.links guard.old.kept.given (P.tells.links guard.old.kept.porter) }
    requires stands { IsOrdering D.view D.faults (links_of P.Link.gives P.Link.takes P.Link.Rest.unread P.Link.Rest.sent) N.links N.back N.greets N.cluster N.turn N.first guard.old.entries guard.old.kept.node guard.old.kept.places.items (P.tells.back guard.old.kept.porter) guard.old.kept.store }
    ensures none { guard.new.enlisted ≡ [] }
    ensures stands { IsOrdering D.view D.faults (links_of P.Link.gives P.Link.takes P.Link.Rest.unread P.Link.Rest.sent) N.links N.back N.greets N.cluster N.turn N.first guard.new.entries guard.new.kept.node guard.new.kept.places.items (P.tells.back guard.new.kept.porter) guard.new.kept.store }
    ensures given { HasGiven N.links guard.new.kept.given (P.tells.links guard.new.kept.porter) }
    ensures made { IfOk result (EnteredAfter N.cluster N.first N.capacity guard.old.entries pass.old pass.new call.now) }
    ensures unmade { IfErr result (UnmadeAfter N.cluster N.first N.capacity guard.old.entries pass.old pass.new call.now) }
{
    if guard.is_faulted() {
        return Err(Unmade::Halted(Halt::Stopped {
            at: pass.seen() - 1,
        }));
    }
    if guard.spare() == 0 {
        return Err(Unmade::Halted(Halt::Full {
            capacity: pass.seen(),
        }));
    }
    let session = pass.session();
    let _made = pass.made();
    let told = guard.kept().order(session, call);
    match told {
        Err(site) => Err(Unmade::Away(site)),
        Ok(outcome) => {
            guard.push(pass, *call, &outcome);
            Ok(outcome)
        }
    }
}
