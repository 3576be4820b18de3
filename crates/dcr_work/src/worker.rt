ghost use Rattle.std.specs.Prelude.{◌≡◌, ◌<◌, length};
ghost use Rattle.std.specs.List.{All};
ghost use Rattle.dcr_cell.specs.ClusterId.{IsCall, IsRunOf};
ghost use Rattle.dcr_work.specs.Dealing.{IsNew};
ghost use Rattle.dcr_work.specs.Working.{BeganWith, HaveWorked};

use crate::session::run_session;
use crate::turnstile::{Turnstile, Way};
use dcr_base::{Disk, Gate};
use dcr_cell::StoreName;
use dcr_cluster::Cluster;
use dcr_journal::CallList;
use dcr_turn::Pass;
use std::sync::Wait;

/// The work of one worker, whose passes these are, the first session last: each session wholly before the next.
pub(crate) fn work<D: Disk, G: Gate + Drop, N: StoreName<D>, R: Wait>(
    rt: &R,
    cluster: &Cluster<D, G, N>,
    passes: &mut [Pass<N>],
    sessions: &[CallList],
    turnstile: &Turnstile,
)
    requires in_range { All (λ calls. All (IsCall N.cluster) calls) sessions.now }
    requires new { All (IsNew (length sessions.now)) passes.old }
    requires turnstile { 0 < turnstile.now }
    ensures { HaveWorked N.cluster N.first N.capacity sessions.now passes.old passes.new }
{
    let Some((first, rest)) = passes.split_last_mut() else {
        return;
    };
    let calls = &sessions[first.session() as usize];
    let way = run_session(rt, cluster, first, calls, turnstile, Way::Beside);
    go_on(rt, cluster, first, rest, sessions, turnstile, way);
}

// The sessions that are left, after the one of the last pass. The next pass learns what that has seen.
fn go_on<'a, D: Disk, G: Gate + Drop, N: StoreName<D>, R: Wait>(
    rt: &R,
    cluster: &Cluster<D, G, N>,
    last: &mut Pass<N>,
    left: &mut [Pass<N>],
    sessions: &[CallList],
    turnstile: &'a Turnstile,
    way: Way<'a>,
)
    requires in_range { All (λ calls. All (IsCall N.cluster) calls) sessions.now }
    requires new { All (IsNew (length sessions.now)) left.old }
    requires legal { IsRunOf N.cluster last.old.front }
    requires turnstile { 0 < turnstile.now }
    ensures last { last.new ≡ last.old }
    ensures after { All (BeganWith last.old.front) left.new }
    ensures worked { HaveWorked N.cluster N.first N.capacity sessions.now left.old left.new }
{
    let Some((next, rest)) = left.split_last_mut() else {
        way.leave();
        return;
    };
    cluster.learn(next, last);
    let calls = &sessions[next.session() as usize];
    let way = run_session(rt, cluster, next, calls, turnstile, way);
    go_on(rt, cluster, next, rest, sessions, turnstile, way);
}
