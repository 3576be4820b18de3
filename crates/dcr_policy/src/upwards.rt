// What stands at a node, then at its parent, and so on upwards.
ghost use Rattle.std.specs.Prelude.{◌≡◌, ◌<◌, length, slice_get};
ghost use Rattle.dcr_nest.specs.Tree.{AreEarlier};
ghost use Rattle.dcr_policy.specs.Upward.{upward};

use crate::RoleList;

/// The first role upwards of a node: of its own, or else of its parent's, and so on. None exactly where there is none.
pub(crate) fn first_upward(parents: &[Option<u16>], own: &[RoleList], node: u16) -> Option<usize>
    requires earlier { AreEarlier parents.now }
    requires as_many { length own.now ≡ length parents.now }
    requires node { node < length parents.now }
    ensures { result ≡ slice_get (upward parents.now own.now node) 0 }
{
    let mut next = Some(node);
    while let Some(x) = next {
        if let Some(role) = own[usize::from(x)].first() {
            return Some(role);
        }
        next = parents[usize::from(x)];
    }
    None
}
