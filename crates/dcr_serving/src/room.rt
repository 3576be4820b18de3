ghost use Rattle.std.specs.Prelude.{◌≡◌, ◌+◌, ◌≤◌, [], length, vec_capacity, IfOk};
ghost use Rattle.std.specs.List.{All};
ghost use Rattle.dcr_turn.specs.PassValue.{new_passes};
ghost use Rattle.dcr_serving.specs.Hands.{IsReady};
ghost use Rattle.dcr_serving.specs.Placing.{HasRoom, filled};

use crate::LinkEnd;
use crate::record::Record;
use crate::seat::Seat;
use crate::work::Hand;
use dcr_base::Link;
use dcr_serve::DeskShare;
use dcr_set::NoMemory;
use dcr_turn::{Pass, TurnName};
use std::alloc::Global;
use std::sync::ledger::Ledger;

/// The memory that serving takes.
#[derive(Drop)]
pub(crate) struct Room<L: Link, N: TurnName, M: Ledger> {
    pub(crate) seats: Vec<Seat<N>>,
    /// For each worker.
    pub(crate) records: Vec<Vec<Record<L, N>>>,
    pub(crate) hands: Vec<Hand<L, N, M>>,
    /// For each session, in order.
    pub(crate) slots: Vec<Option<Record<L, N>>>,
    pub(crate) passes: Vec<Pass<N>>,
    pub(crate) ends: Vec<LinkEnd<L>>,
}

impl<L: Link, N: TurnName, M: Ledger> Room<L, N, M> {
    /// For so many sessions and workers.
    pub(crate) fn new(
        alloc: Global,
        sessions: usize,
        workers: usize,
    ) -> Result<Room<L, N, M>, NoMemory>
        ensures seats { IfOk result (λ room. HasRoom sessions room.seats) }
        ensures records { IfOk result (λ room. (length room.records.items ≡ workers) × All (HasRoom sessions) room.records.items) }
        ensures hands { IfOk result (λ room. HasRoom workers room.hands) }
        ensures slots { IfOk result (λ room. (length room.slots.items ≡ sessions) × (filled room.slots.items ≡ [])) }
        ensures passes { IfOk result (λ room. HasRoom sessions room.passes) }
        ensures ends { IfOk result (λ room. HasRoom sessions room.ends) }
    {
        Ok(Room {
            seats: Vec::with_capacity(alloc, sessions)?,
            records: records(alloc, sessions, workers)?,
            hands: Vec::with_capacity(alloc, workers)?,
            slots: slots(alloc, sessions)?,
            passes: Vec::with_capacity(alloc, sessions)?,
            ends: Vec::with_capacity(alloc, sessions)?,
        })
    }
}

// Room for the records of so many sessions, for each worker.
fn records<L: Link, N: TurnName>(
    alloc: Global,
    sessions: usize,
    workers: usize,
) -> Result<Vec<Vec<Record<L, N>>>, NoMemory>
    ensures { IfOk result (λ all. (length all.items ≡ workers) × All (HasRoom sessions) all.items) }
{
    let mut all = Vec::with_capacity(alloc, workers)?;
    for _ in 0..workers {
        all.push_reserved(Vec::with_capacity(alloc, sessions)?);
    }
    Ok(all)
}

// So many places, with nothing in them.
fn slots<L: Link, N: TurnName>(
    alloc: Global,
    sessions: usize,
) -> Result<Vec<Option<Record<L, N>>>, NoMemory>
    ensures { IfOk result (λ slots. (length slots.items ≡ sessions) × (filled slots.items ≡ [])) }
{
    let mut slots = Vec::with_capacity(alloc, sessions)?;
    for _ in 0..sessions {
        slots.push_reserved(None);
    }
    Ok(slots)
}

/// A seat for each new pass.
pub(crate) fn seated<N: TurnName>(mut passes: Vec<Pass<N>>, mut seats: Vec<Seat<N>>) -> Vec<Seat<N>>
    requires new { passes.items ≡ new_passes (length passes.items) }
    requires room { HasRoom (length passes.items) seats }
    ensures { result.items ≡ passes.items }
{
    while let Some(pass) = passes.pop() {
        seats.push_reserved(Seat::new(pass));
    }
    seats.reverse();
    seats
}

/// Gives each worker a part of the share, and its room.
pub(crate) fn deal<L: Link, N: TurnName, M: Ledger>(
    share: &mut DeskShare<M>,
    mut records: Vec<Vec<Record<L, N>>>,
    mut hands: Vec<Hand<L, N, M>>,
    sessions: usize,
) -> Vec<Hand<L, N, M>>
    requires parts { share.old.parts ≡ length records.items + 1 }
    requires records { All (HasRoom sessions) records.items }
    requires hands { HasRoom (length records.items) hands }
    ensures part { share.new.parts ≡ 1 }
    ensures taken { share.new.taken ≡ share.old.taken }
    ensures as_many { length result.items ≡ length records.items }
    ensures ready { All (IsReady sessions) result.items }
{
    while let Some(records) = records.pop() {
        hands.push_reserved(Hand {
            share: share.split(),
            records,
        });
    }
    hands
}
