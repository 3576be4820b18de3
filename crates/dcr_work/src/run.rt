ghost use Rattle.std.specs.Prelude.{◌≡◌, ◌<◌, ◌≤◌, length, IfOk, IfErr};
ghost use Rattle.std.specs.List.{All};
ghost use Rattle.dcr_turn.specs.PassValue.{new_passes};
ghost use Rattle.dcr_cell.specs.ClusterId.{IsCall};
ghost use Rattle.dcr_work.specs.Dealing.{IsNew};
ghost use Rattle.dcr_work.specs.Working.{AllHands, AllWorked, HaveWorked};

use crate::deal::{deal, empty_hands, gather};
use crate::turnstile::{Turnstile, turnstile};
use crate::worker::work;
use dcr_base::{Disk, Gate};
use dcr_cell::StoreName;
use dcr_cluster::Cluster;
use dcr_journal::CallList;
use dcr_turn::{Pass, TurnName};
use std::alloc::Global;
use std::sync::Wait;
use std::thread;
use std::thread::Threads;

/// There was no memory for the workers. No call was made, and the passes come back as they were handed in.
#[derive(Drop)]
pub struct RunStop<N: TurnName> {
    pub passes: Vec<Pass<N>>,
}

/// Makes the calls of the sessions by 1 to 64 workers, each in a thread of its own where one can be had. The passes are
/// all those of the cluster, in order, and have made no call; there are as many as sessions, and the numbers of the calls
/// are those of sites and atoms. A session belongs to the worker that its number, divided by the number of workers, leaves.
/// A worker makes its sessions' calls in order, each session wholly before the next, whose pass begins with what the last
/// one had seen at its end. A session ends early only where a call halts.
///
/// The passes come back in order. All memory is taken before the first call; it is stopped for want of that alone.
pub fn run_sessions<
    D: Disk + Send,
    G: Gate + Drop + Sync,
    N: StoreName<D> + Send + Sync,
    R: Threads + Wait + Sync,
>(
    rt: &R,
    alloc: Global,
    cluster: &Cluster<D, G, N>,
    mut passes: Vec<Pass<N>>,
    sessions: &[CallList],
    workers: u32,
) -> Result<Vec<Pass<N>>, RunStop<N>>
    requires passes { passes.items ≡ new_passes N.turn.sessions }
    requires as_many { length sessions.now ≡ N.turn.sessions }
    requires in_range { All (λ calls. All (IsCall N.cluster) calls) sessions.now }
    requires workers { (0 < workers) × (workers ≤ 64) }
    ensures worked { IfOk result (λ passes. AllWorked N.cluster N.first N.capacity workers sessions.now passes.items) }
    ensures stopped { IfErr result (λ stop. stop.passes.items ≡ passes.items) }
{
    let count = passes.len();
    let hands = empty_hands(alloc, workers as usize, count);
    let Ok(mut hands) = hands else {
        return Err(RunStop { passes });
    };
    let Ok(turnstile) = turnstile(alloc) else {
        return Err(RunStop { passes });
    };
    let dealt = hands.as_mut_slice();
    deal(&mut passes, dealt);
    at_work(rt, cluster, dealt, sessions, &turnstile);
    gather(&mut passes, dealt, count);
    Ok(passes)
}

// The workers at work, each over the passes in its hand.
fn at_work<
    D: Disk + Send,
    G: Gate + Drop + Sync,
    N: StoreName<D> + Send + Sync,
    R: Threads + Wait + Sync,
>(
    rt: &R,
    cluster: &Cluster<D, G, N>,
    hands: &mut [Vec<Pass<N>>],
    sessions: &[CallList],
    turnstile: &Turnstile,
)
    requires turnstile { 0 < turnstile.now }
    requires some { 0 < length hands.old }
    requires in_range { All (λ calls. All (IsCall N.cluster) calls) sessions.now }
    requires new { All (λ hand. All (IsNew (length sessions.now)) hand.items) hands.old }
    ensures as_many { length hands.new ≡ length hands.old }
    ensures worked { AllHands N.cluster N.first N.capacity sessions.now hands.old hands.new }
{
    let workers = hands.len();
    thread::for_each_mut(
        rt,
        hands,
        workers,
        &|_, hand: &mut Vec<Pass<N>>|
            requires { All (λ calls. All (IsCall N.cluster) calls) sessions.now × All (IsNew (length sessions.now)) hand.now.items × (0 < turnstile.now) }
            ensures { HaveWorked N.cluster N.first N.capacity sessions.entry.now hand.entry.now.items hand.exit.now.items }
        { work(rt, cluster, hand.as_mut_slice(), sessions, turnstile) },
    );
}
