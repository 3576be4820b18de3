ghost use Rattle.std.specs.Prelude.{◌≡◌, ◌<◌, ◌^◌};
ghost use Rattle.dcr_format.specs.Facts.{at_most, refusal};

use crate::{CaseStop, LimitKind};

/// The most nodes of a graph.
pub const MAX_NODES: usize = 2048;

/// The most atoms of a graph.
pub const MAX_ATOMS: usize = 1024;

/// The most written relations.
pub const MAX_RELATIONS: usize = 4096;

/// The most bytes of a label.
pub const MAX_LABEL: usize = 200;

/// The most sites of a cover.
pub const MAX_SITES: usize = 64;

/// The most sessions.
pub const MAX_SESSIONS: usize = 1024;

/// The most calls of all sessions.
pub const MAX_CALLS: usize = 200_000;

/// Whether the count is no more than this limit: `Limit` with the count exactly where it is more. It takes no memory.
pub fn try_count(kind: LimitKind, most: usize, count: usize) -> Result<(), CaseStop>
    requires { count < 2 ^ 32 }
    ensures { refusal result ≡ at_most kind most count }
{
    if count > most {
        return Err(CaseStop::Limit {
            kind,
            count: count as u32,
        });
    }
    Ok(())
}
