// Sites are given what they miss.
ghost use Rattle.std.specs.Prelude.{◌≡◌, ◌<◌, List, length, OnOk};
ghost use Rattle.dcr_set.specs.EventSet.{Set};
ghost use Rattle.dcr_graph.specs.Rules.{Rules};
ghost use Rattle.dcr_graph.specs.declared.marking.Marking.{Marking as Marks};
ghost use Rattle.dcr_node.specs.Right.{IsRight};
ghost use Rattle.dcr_node.specs.WorldState.{HaveHeardAll, IsKept};
ghost use Rattle.dcr_schedule.specs.Playing.{HasHeard};

use dcr_node::{World, WorldEvent, proposals_are_told};
use dcr_set::{NoMemory, SiteId};

/// Gives a site the items of its stream that it has not heard of, in order.
pub(crate) fn hear(world: &mut World, site: SiteId) -> Result<(), NoMemory>
    requires { site < length world.old.sites }
    ensures kept { IsKept world.old world.new }
    ensures right { (G : Rules) (C : List Set) (M : Marks) → IsRight G C M world.old → IsRight G C M world.new }
    ensures heard { OnOk result ((G : Rules) (C : List Set) (M : Marks) → IsRight G C M world.old → HasHeard site world.old world.new) }
{
    // An item is heard of by its delivery.
    proposals_are_told();
    let heard = world.site_node(site).count();
    let all = world.journal_node().stream_len(site);
    for index in heard..all {
        let sent = world.sent();
        world.event(WorldEvent::Item { site, index })?;
        world.event(WorldEvent::Deliver { message: sent })?;
    }
    Ok(())
}

/// Gives every site the items that it has not heard of, the sites in order.
pub(crate) fn hear_all(world: &mut World) -> Result<(), NoMemory>
    ensures kept { IsKept world.old world.new }
    ensures right { (G : Rules) (C : List Set) (M : Marks) → IsRight G C M world.old → IsRight G C M world.new }
    ensures journal { OnOk result ((G : Rules) (C : List Set) (M : Marks) → IsRight G C M world.old → world.new.journal ≡ world.old.journal) }
    ensures heard { OnOk result ((G : Rules) (C : List Set) (M : Marks) → IsRight G C M world.old → HaveHeardAll world.new) }
{
    for site in 0..world.sites() {
        hear(world, SiteId(site))?;
    }
    Ok(())
}
