// One session of a case, served over one link by itself.
ghost use Rattle.std.specs.Prelude.{◌≡◌, [], Some};
ghost use Rattle.dcr_roles.specs.Accepted.{IsAccepted};
ghost use Rattle.dcr_cell.specs.Stored.{MayBegin};
ghost use Rattle.dcr_cluster_rows.specs.Made.{AreOfCase, cluster_of};

use crate::links::{door_of, whole};
use crate::same::same;
use dcr_base::{Disk, Door, OpenGate};
use dcr_cell::StoreName;
use dcr_cluster_rows::{GUARDED, Parts, no_tape, opened, parts_of};
use dcr_fakes::{MemDisk, MemLink};
use dcr_link::{WorkCause, WorkEnd, serve_session};
use dcr_roles::{Accepted, read_accepted};
use dcr_tape::Store;
use std::alloc::Global;
use std::marker::Brand;
use std::process::Abort;
use std::sync::Wait;
use std::test::Fail;

// The first session of a cluster of the case, served over the link: how it has ended, and what the link has taken.
fn serve_first<N: StoreName<MemDisk> + Send + Sync, R: Abort + Wait>(
    rt: &R,
    alloc: Global,
    accepted: &Accepted,
    parts: Parts,
    store: Store<MemDisk>,
    link: MemLink,
    replies: &[u8],
) -> Result<(), Fail>
    requires accepted { IsAccepted accepted.now }
    requires parts { AreOfCase accepted.now.case parts.blank parts.sites.items }
    requires cluster { N.cluster ≡ cluster_of accepted.now.case [] }
    requires turn { N.turn ≡ parts.blank }
    requires capacity { N.capacity ≡ 100 }
    requires first { N.first ≡ Some store }
    requires begins { MayBegin ⟦<MemDisk as Disk>⟧.view [] store }
{
    let case = &accepted.case;
    let opened = opened::<_, _, N>(alloc, case, parts, 100, store, &[], OpenGate);
    let Ok((cluster, mut passes)) = opened else {
        return Err(Fail::new("the cluster is opened"));
    };
    let Some(pass) = passes.get_mut(0) else {
        return Err(Fail::new("there is a session"));
    };
    let mut link = link;
    let end = serve_session(
        rt,
        alloc,
        &cluster,
        pass,
        &case.graph,
        &case.cover,
        &accepted.policy,
        &mut link,
    );
    let want = WorkEnd {
        calls: 2,
        cause: WorkCause::Ended,
    };
    same(rt, &end, &want, "the end of the session");
    same(rt, &link.taken(), &replies, "what was answered");
    Ok(())
}

// The same of a case file with one session, over a link that asks this.
fn served_first<R: Abort + Wait>(
    rt: &R,
    alloc: Global,
    text: &str,
    asked: &[u8],
    replies: &str,
) -> Result<(), Fail> {
    let accepted = read_accepted(alloc, text.as_bytes())?;
    let parts = parts_of(alloc, &accepted.case, 1)?;
    let mut door = door_of(alloc, &[whole(asked)], &[])?;
    let Ok(Some(link)) = door.next() else {
        return Err(Fail::new("there is a link"));
    };
    serve_first::<Brand, _>(
        rt,
        alloc,
        &accepted,
        parts,
        no_tape(alloc),
        link,
        replies.as_bytes(),
    )
}

#[test]
fn a_session_is_served_by_itself(rt: HostRuntime) -> Result<(), Fail> {
    served_first(
        &rt,
        rt.alloc(),
        GUARDED,
        b"exec nurse gm\nexec doctor pm\nlook nurse\n",
        "denied nur
0 0 0 exec doctor pm done
1 0 1 look nurse executed - pending gm included s,gm,dt
",
    )
}
