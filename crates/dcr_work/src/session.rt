ghost use Rattle.std.specs.Prelude.{◌≡◌, ◌<◌, false, length};
ghost use Rattle.std.specs.List.{All};
ghost use Rattle.dcr_turn.specs.Covers.{is_by};
ghost use Rattle.dcr_cell.specs.ClusterId.{IsCall, IsRunOf};
ghost use Rattle.dcr_work.specs.Working.{BeganWith, HasWorked};

use crate::turnstile::{Turnstile, Way};
use dcr_base::{Disk, Gate};
use dcr_cell::StoreName;
use dcr_cluster::Cluster;
use dcr_journal::{CallList, Outcome};
use dcr_turn::Pass;
use std::sync::Wait;

/// Makes the calls of the pass's session, which has made none, one after the other, until a call halts. The worker goes on
/// from call to call as its way says, which comes back.
pub(crate) fn run_session<'a, D: Disk, G: Gate, N: StoreName<D>, R: Wait>(
    rt: &R,
    cluster: &Cluster<D, G, N>,
    pass: &mut Pass<N>,
    calls: &CallList,
    turnstile: &'a Turnstile,
    mut way: Way<'a>,
) -> Way<'a>
    requires in_range { All (IsCall N.cluster) calls.now }
    requires legal { IsRunOf N.cluster pass.old.front }
    requires made_none { pass.old.made ≡ 0 }
    requires none { All (λ entry. is_by pass.old.session entry ≡ false) pass.old.front }
    requires turnstile { 0 < turnstile.now }
    ensures session { pass.new.session ≡ pass.old.session }
    ensures worked { HasWorked N.cluster N.first N.capacity calls.now pass.new }
    ensures began { BeganWith pass.old.front pass.new }
{
    // What the calls are told, one after the other.
    let mut told = Outcome::AllDone;
    for i in 0..calls.len() {
        let call = *calls.get(i).unwrap();
        let mut waited = false;
        let Ok(()) = cluster.call_into(rt, pass, &call, &mut told, &mut waited) else {
            return way;
        };
        way = way.next(rt, turnstile, waited);
    }
    way
}
