// What a serving is told of its cluster.
ghost use Rattle.std.specs.Prelude.{◌≡◌, ◌≤◌, ◌++◌, length, IfOk, IfSome, OnOk};
ghost use Rattle.std.specs.Option.{option_map};
ghost use Rattle.dcr_text.specs.Cutting.{without_return};
ghost use Rattle.dcr_journal.specs.Run.{IsInRange};
ghost use Rattle.dcr_line.specs.CallLine.{call_in};
ghost use Rattle.dcr_line.specs.Fits.{FitsEntry};
ghost use Rattle.dcr_line.specs.Line.{entry_text};
ghost use Rattle.dcr_policy.specs.Deny.{IsOfAtoms, deny};
ghost use Rattle.dcr_link.specs.Replies.{terms_of};

use dcr_graph::{Graph, Name};
use dcr_journal::{Call, Entry};
use dcr_line::{Directory, read_call, write_entry};
use dcr_policy::Policy;
use dcr_proj::Cover;
use dcr_set::NoMemory;
use std::alloc::Global;
use std::marker::Model;

/// The graph and the cover whose names the lines of sessions use, with a directory of these names, and the policy by which
/// calls are denied. It is made once for all sessions of a serving. Contracts see the names and the policy.
#[derive(Drop)]
pub struct Scene<'n> {
    graph: &'n Graph,
    cover: &'n Cover,
    policy: &'n Policy,
    directory: Directory<'n>,
}

impl<'n> Model for Scene<'n> {
    ghost use Rattle.dcr_link.specs.Replies.{Terms};
    ghost use Rattle.dcr_link.specs.SceneModel.{IsScene, scene_of};

    ghost Value = { Terms };

    ghost view = { scene_of };

    ghost invariant = { IsScene };
}

impl<'n> Scene<'n> {
    /// Of a graph, a cover and a policy. `NoMemory` where memory could not be had.
    pub fn new(
        alloc: Global,
        graph: &'n Graph,
        cover: &'n Cover,
        policy: &'n Policy,
    ) -> Result<Scene<'n>, NoMemory>
        ensures { IfOk result (λ scene. scene ≡ terms_of cover.now.names graph.now.names policy.now) }
    {
        Ok(Scene {
            graph,
            cover,
            policy,
            directory: Directory::new(alloc, graph, cover)?,
        })
    }

    /// The call that a line asks for. None where it is none.
    pub(crate) fn call_of(&self, line: &[u8]) -> Option<Call>
        ensures call { result ≡ call_in self.now.sites self.now.atoms line.now }
        ensures in_range { IfSome result (λ call. IsInRange (length self.now.sites) (length self.now.atoms) call) }
    {
        read_call(line, &self.directory)
    }

    /// The role for want of which a call of the session is denied. None where it is allowed.
    pub(crate) fn deny(&self, session: u32, call: &Call) -> Option<&Name>
        requires { IsOfAtoms (length self.now.policy.atoms) call.now }
        ensures { option_map (λ role. role.now) result ≡ deny self.now.policy session call.now }
    {
        self.policy.deny(session, call)
    }

    /// Adds the text of the entry of this place. `NoMemory` where memory could not be had.
    pub(crate) fn put(&self, place: u32, entry: &Entry, text: &mut Vec<u8>) -> Result<(), NoMemory>
        requires { FitsEntry (length self.now.sites) (length self.now.atoms) entry.now }
        ensures { OnOk result (text.new.items ≡ text.old.items ++ entry_text self.now.sites self.now.atoms place entry.now) }
    {
        write_entry(place, entry, self.graph, self.cover, text)
    }
}
