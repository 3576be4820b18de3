ghost use Rattle.std.specs.Prelude.{◌≡◌, slice_get};

use crate::RoleList;
use crate::kept::{Kept, prepare};
use crate::upwards::first_upward;
use dcr_graph::Name;
use dcr_journal::Call;
use dcr_nest::Nested;
use dcr_set::{EventId, EventSet, NoMemory};
use std::alloc::Global;
use std::marker::Model;

/// Who may execute which events: the roles of the events, those of the users, and which user each session has. A role
/// is kept by its number among the names, and the roles of an atom are never written out: for each user the set of the
/// atoms that ask for one of his roles is kept. Contracts see two lists, the roles that each atom asks for (its own,
/// then its parent's, and so on upwards) and those that each session with a user has.
#[derive(Drop)]
pub struct Policy {
    names: Vec<Name>,
    // The parent of each node, the node of each atom, and each node's own roles.
    parents: Vec<Option<u16>>,
    nodes: Vec<u16>,
    own: Vec<RoleList>,
    // The roles of each user, the atoms that ask for one of them, and the user of each session.
    users: Vec<RoleList>,
    may: Vec<EventSet>,
    by: Vec<usize>,
}

impl Model for Policy {
    ghost use Rattle.dcr_policy.specs.Roles.{Roles};

    ghost Value = { Roles };

    ghost use Rattle.dcr_policy.specs.PolicyModel.{roles_in, IsPolicy};

    ghost view = { roles_in };

    ghost invariant = { IsPolicy };
}

impl Policy {
    ghost use Rattle.std.specs.Prelude.{◌≡◌, ◌<◌, length, option_map, IfOk, slice_get, slice_index_or, []};
    ghost use Rattle.std.specs.List.{All};
    ghost use Rattle.dcr_graph.specs.Names.{AreDistinct};
    ghost use Rattle.dcr_nest.specs.Nest.{parents_of};
    ghost use Rattle.dcr_policy.specs.Deny.{deny, shares_role, IsOfAtoms};
    ghost use Rattle.dcr_policy.specs.Numbered.{AreBelow, all_named};
    ghost use Rattle.dcr_policy.specs.Roles.{roles_of};

    /// The policy of the events of a nested graph, each with its own roles, of users with their roles, and of sessions
    /// by their users. Roles are numbers of these names, users are numbers in their list. `NoMemory` where memory could
    /// not be had.
    pub fn new(
        alloc: Global,
        nested: &Nested,
        names: Vec<Name>,
        own: Vec<RoleList>,
        users: Vec<RoleList>,
        by: Vec<usize>,
    ) -> Result<Policy, NoMemory>
        requires distinct { AreDistinct names.items }
        requires as_many { length own.items ≡ length nested.now.nodes }
        requires own { AreBelow (length names.items) own.items }
        requires users { AreBelow (length names.items) users.items }
        requires by { All (λ user. user < length users.items) by.items }
        ensures { IfOk result (λ policy. policy ≡ roles_of (parents_of nested.now.nodes)
            (all_named names.items own.items) (all_named names.items users.items) by.items) }
    {
        let Kept {
            parents,
            nodes,
            may,
        } = prepare(alloc, nested, names.len(), &own, &users)?;
        Ok(Policy {
            names,
            parents,
            nodes,
            own,
            users,
            may,
            by,
        })
    }

    /// The role for want of which the call of the session is denied: the first that its event asks for. None exactly
    /// where it is allowed: it is no execution, its event asks for no role, or the session has one that it asks for.
    /// Any session may be asked about; one without a user has no role. Takes no memory.
    pub fn deny(&self, session: u32, call: &Call) -> Option<&Name>
        requires { IsOfAtoms (length self.now.atoms) call.now }
        ensures { option_map (λ role. role.now) result ≡ deny self.now session call.now }
    {
        let Call::Exec(_, EventId(e)) = *call else {
            return None;
        };
        if self.has_one(session, e) {
            return None;
        }
        self.first(e)
    }

    // Whether the session has one of the roles that the atom asks for.
    fn has_one(&self, session: u32, e: u16) -> bool
        requires { e < length self.now.atoms }
        ensures { result ≡ shares_role (slice_index_or self.now.atoms e []) (slice_index_or self.now.sessions session []) }
    {
        match user_of(&self.by, session) {
            Some(user) => self.may[user].contains(EventId(e)),
            None => false,
        }
    }

    // The first of the roles that the atom asks for.
    fn first(&self, e: u16) -> Option<&Name>
        requires { e < length self.now.atoms }
        ensures { option_map (λ role. role.now) result ≡ slice_get (slice_index_or self.now.atoms e []) 0 }
    {
        let role = first_upward(&self.parents, &self.own, self.nodes[usize::from(e)])?;
        Some(&self.names[role])
    }
}

// The user of a session. None exactly where it has none.
fn user_of(by: &[usize], session: u32) -> Option<usize>
    ensures { result ≡ slice_get by.now session }
{
    by.get(session as usize).copied()
}
