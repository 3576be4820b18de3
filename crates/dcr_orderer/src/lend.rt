ghost use Rattle.std.specs.Borrow.{Bor};
ghost use Rattle.std.specs.Fn.{FnOnceReturnsAt};
ghost use Rattle.std.specs.Prelude.{◌≡◌, List};
ghost use Rattle.dcr_journal.specs.declared.call.Entry.{Entry};
ghost use Rattle.dcr_tape.specs.declared.tape.Store.{Store};
ghost use Rattle.dcr_turn.specs.PassValue.{HasMadeAll};
ghost use Rattle.dcr_cell.specs.Stored.{StoreStands};

use crate::Orderer;
use dcr_base::{Disk, Link};
use dcr_cell::StoreName;
use dcr_order::PorterName;
use dcr_porter::Porter;
use dcr_tape::Store;
use dcr_turn::Pass;
use std::sync::Wait;

impl<D: Disk, P: Porter, N: StoreName<D> + PorterName<P::Link, <P::Link as Link>::Rest>> Orderer<
    D,
    P,
    N,
> {
    /// Lends the store as it stands at this moment, under the lock. It stands for the executions from before and those of a list
    /// that begins with what the pass has seen (`StoreStands`): so each execution that a call of the pass was answered as done, or
    /// that it has learned of, is on the tape by now, where there is one. The pass has seen that list then. It waits for the lock,
    /// and takes no memory; all calls wait while the store is looked at.
    pub fn with_store<R: Wait, T, F: FnOnce(&Store<D>) -> T>(
        &self,
        rt: &R,
        pass: &mut Pass<N>,
        look: F,
    ) -> T
        requires { (store : Bor (Store D)) (J : List Entry) → HasMadeAll pass.old J → StoreStands D.view D.faults N.first N.cluster.old J store.now → F.pre look store }
        ensures seen { HasMadeAll pass.old pass.new.front }
        ensures session { pass.new.session ≡ pass.old.session }
        ensures made { pass.new.made ≡ pass.old.made }
        ensures looked { (store : Store D) × StoreStands D.view D.faults N.first N.cluster.old pass.new.front store × FnOnceReturnsAt F.FnOnce look store result }
    {
        let mut guard = self.turn.lock(rt);
        guard.meet(pass);
        let told = look(guard.kept().store());
        guard.unlock();
        told
    }
}
