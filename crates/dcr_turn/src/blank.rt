ghost use Rattle.std.specs.Prelude.{◌≡◌, ◌≤◌, IfOk};

use crate::order::{LengthTable, RecordSeat};
use dcr_proj::Network;
use dcr_set::NoMemory;
use std::alloc::Global;
use std::marker::Model;
use std::snapshot::Snapshot;

/// A turn that has no name yet. Contracts see which turn it is: the alphabets of its sites, the number of its
/// sessions, and what no other turn shares with it.
#[derive(Drop)]
pub struct TurnBlank {
    pub(crate) table: LengthTable,
    pub(crate) seat: RecordSeat,
    pub(crate) sites: u16,
    pub(crate) sessions: u32,
}

impl Model for TurnBlank {
    ghost use Rattle.dcr_turn.specs.BlankModel.{turn_of, IsBlank};
    ghost use Rattle.dcr_turn.specs.TurnId.{TurnId};

    ghost Value = { TurnId };

    ghost view = { turn_of };

    ghost invariant = { IsBlank };
}

impl TurnBlank {
    /// Of a network's sites and so many sessions, 1,024 at most.
    pub fn new(alloc: Global, network: &Network, sessions: u32) -> Result<TurnBlank, NoMemory>
        requires { sessions ≤ 1024 }
        ensures alphabets { IfOk result (λ blank. blank.alphabets ≡ network.now) }
        ensures sessions { IfOk result (λ blank. blank.sessions ≡ sessions) }
    {
        let (table, seat) = LengthTable::of_words(alloc, &[0], &(Snapshot::of(network), sessions))?;
        Ok(TurnBlank {
            table,
            seat,
            sites: network.sites(),
            sessions,
        })
    }
}
