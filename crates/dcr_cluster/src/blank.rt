ghost use Rattle.std.specs.Prelude.{◌≡◌, ◌≤◌, IfOk};

use dcr_proj::Network;
use dcr_set::NoMemory;
use dcr_turn::TurnBlank;
use std::alloc::Global;
use std::marker::Model;

/// A cluster that has no name yet: which sites must hear of an event, and the turn of its calls. Contracts see the turn.
#[derive(Drop)]
pub struct ClusterBlank {
    pub(crate) network: Network,
    pub(crate) turn: TurnBlank,
}

impl Model for ClusterBlank {
    ghost use Rattle.std.specs.Prelude.{◌≡◌};
    ghost use Rattle.dcr_turn.specs.TurnId.{TurnId};

    ghost Value = { TurnId };

    ghost view = { λ blank. blank.turn };

    ghost invariant = { λ blank. blank.network ≡ blank.turn.alphabets };
}

impl ClusterBlank {
    /// Of the network of a cover's sites, whose alphabets are those of their projections, and so many sessions, 1,024 at
    /// most. `NoMemory` where memory could not be had.
    pub fn new(alloc: Global, network: Network, sessions: u32) -> Result<ClusterBlank, NoMemory>
        requires { sessions ≤ 1024 }
        ensures alphabets { IfOk result (λ blank. blank.alphabets ≡ network) }
        ensures sessions { IfOk result (λ blank. blank.sessions ≡ sessions) }
    {
        let turn = TurnBlank::new(alloc, &network, sessions)?;
        Ok(ClusterBlank { network, turn })
    }
}
