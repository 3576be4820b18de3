ghost use Rattle.std.specs.Prelude.{◌≡◌, ◌+◌, length, IsSome};
ghost use Rattle.dcr_graph.specs.GraphValue.{rules_of};
ghost use Rattle.dcr_cluster.specs.Calls.{Shows};
ghost use Rattle.dcr_link.specs.Replies.{IsOfCluster, terms_of};
ghost use Rattle.dcr_link.specs.Serving.{CountsCause, Serves};
ghost use Rattle.dcr_link.specs.declared.end.WorkCause.TheVariants.{Ended, Halted};

use crate::talk::Talk;
use crate::{Scene, WorkCause, WorkEnd};
use dcr_base::{Disk, Gate, Link};
use dcr_cell::StoreName;
use dcr_cluster::Cluster;
use dcr_graph::Graph;
use dcr_policy::Policy;
use dcr_proj::Cover;
use dcr_turn::Pass;
use std::alloc::Global;
use std::sync::Wait;

/// Serves the pass's session over a link, whose lines ask for calls by the names of the graph's atoms and the cover's sites,
/// which are the cluster's. Each whole line is answered by one line before the next is looked at: a call that the policy
/// allows to the session by the text of its entry; one that it denies by `denied ROLE`, with the first role that its event
/// asks for, while no call is made and no lock is taken; and any other line by `bad-line`. A line has at most 200 bytes
/// before its line end, and a carriage return before that is no part of it; 200,000 lines are answered at most. What comes
/// behind the last line end isn't answered. It waits for the link and for the cluster's locks, but holds no lock while it
/// waits for the link.
///
/// It ends with `Ended` exactly where the link's input ends; with `LinkFault` only where the link failed; with `LongLine`
/// and a last reply `long-line` where a line has too many bytes; with `ManyLines` and `many-lines` where a further byte
/// comes behind the last line that may be answered; with `Halted` and `full CAPACITY` or `stopped AT` exactly where a call
/// halts; and with `NoMemory`. The memory of a session is taken before its link is read, but for what a reply of
/// uncommon length wants. What was written is a beginning of the replies (`Replies`), whole where the input has ended,
/// and with a last reply whole unless the link failed. A read that failed ends the session, and so does a write, but for
/// that of a last reply, which isn't told.
pub fn serve_session<D: Disk, G: Gate, N: StoreName<D>, L: Link, R: Wait>(
    rt: &R,
    alloc: Global,
    cluster: &Cluster<D, G, N>,
    pass: &mut Pass<N>,
    graph: &Graph,
    cover: &Cover,
    policy: &Policy,
    link: &mut L,
) -> WorkEnd
    requires graph { rules_of graph.now ≡ N.cluster.rules }
    requires cover { cover.now.owned ≡ N.cluster.owned }
    requires policy { length policy.now.atoms ≡ N.cluster.rules.atoms }
    ensures session { pass.new.session ≡ pass.old.session }
    ensures calls { pass.new.made ≡ pass.old.made + result.calls }
    ensures serves { Serves N.first N.capacity (terms_of cover.now.names graph.now.names policy.now) pass.old pass.new
        (L.gives link.old) (L.gives link.new) (L.takes link.old) (L.takes link.new) result }
    ensures ended { result.cause ≡ Ended → L.has_ended link.new }
    ensures counts { CountsCause result.cause (L.gives link.old).faults (L.gives link.new).faults (L.takes link.old).faults (L.takes link.new).faults }
    ensures halted { (halt : _) → result.cause ≡ Halted halt → Shows N.first N.capacity pass.new.front halt }
    ensures told { IsSome (L.gives link.old).bytes → IsSome (L.gives link.new).bytes }
{
    // A cover has as many sets as names.
    cover.sites();
    let Ok(scene) = Scene::new(alloc, graph, cover, policy) else {
        // The pass is that of a session whose calls are all in what it has seen.
        pass.made();
        return WorkEnd {
            calls: 0,
            cause: WorkCause::NoMemory,
        };
    };
    scene.serve(rt, alloc, cluster, pass, link)
}

impl<'n> Scene<'n> {
    /// The same in a scene that was made before: of the cluster's names, and of a policy over as many atoms.
    pub fn serve<D: Disk, G: Gate, N: StoreName<D>, L: Link, R: Wait>(
        &self,
        rt: &R,
        alloc: Global,
        cluster: &Cluster<D, G, N>,
        pass: &mut Pass<N>,
        link: &mut L,
    ) -> WorkEnd
        requires { IsOfCluster N.cluster self.now }
        ensures session { pass.new.session ≡ pass.old.session }
        ensures calls { pass.new.made ≡ pass.old.made + result.calls }
        ensures serves { Serves N.first N.capacity self.now pass.old pass.new
            (L.gives link.old) (L.gives link.new) (L.takes link.old) (L.takes link.new) result }
        ensures counts { CountsCause result.cause (L.gives link.old).faults (L.gives link.new).faults (L.takes link.old).faults (L.takes link.new).faults }
        ensures ended { result.cause ≡ Ended → L.has_ended link.new }
        ensures halted { (halt : _) → result.cause ≡ Halted halt → Shows N.first N.capacity pass.new.front halt }
        ensures told { IsSome (L.gives link.old).bytes → IsSome (L.gives link.new).bytes }
    {
        let made = pass.made();
        let Ok(mut talk) = Talk::new(alloc, self) else {
            return WorkEnd {
                calls: 0,
                cause: WorkCause::NoMemory,
            };
        };
        let cause = talk.hold(rt, cluster, pass, link);
        WorkEnd {
            calls: pass.made() - made,
            cause,
        }
    }
}
