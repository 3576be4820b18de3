ghost use Rattle.std.specs.Prelude.{◌≡◌, ◌≤◌, [], length, IfOk, IfErr, OnOk};
ghost use Rattle.dcr_turn.specs.FrontValue.{new_fronts};
ghost use Rattle.dcr_turn.specs.PassValue.{new_passes};
ghost use Rattle.dcr_turn.specs.Records.{all_know, everyone, journal_and_sessions};

use crate::ledger::Ledger;
use crate::order::Order;
use crate::records::Records;
use crate::turn::{Beside, Locked};
use crate::{Front, Keeps, Pass, Turn, TurnBlank, TurnName, TurnRefused};
use dcr_journal::Journal;
use dcr_lock::{Row, RowRefused};
use dcr_set::{NoMemory, SiteId};
use std::alloc::{AllocFailed, Global};

/// A turn whose memory was taken, but for its lock's: an empty journal, and nothing kept beside it yet.
#[derive(Drop)]
pub struct TurnReady<N: TurnName> {
    order: Order<N>,
    ledger: Ledger<N>,
    ghost empty: { ledger.entries ≡ [] },
    ghost alone: { ledger.enlisted ≡ [] },
}

impl<N: TurnName> TurnReady<N> {
    ghost use Rattle.std.specs.Prelude.{◌≡◌, ◌≤◌, [], length, IfOk, IfErr};

    /// The turn of a blank, with an empty journal of this capacity, 200,000 at most. With it come the fronts of its sites
    /// and the passes of its sessions, in order; they have seen and done nothing. `NoMemory` where memory could not be
    /// had.
    pub fn new(
        alloc: Global,
        blank: TurnBlank,
        capacity: u32,
    ) -> Result<(TurnReady<N>, Vec<Front<N>>, Vec<Pass<N>>), NoMemory>
        requires turn { blank ≡ N.turn }
        requires capacity { capacity ≡ N.capacity }
        requires most { capacity ≤ 200000 }
        ensures fronts { IfOk result (λ opened. opened.1.items ≡ new_fronts (length N.turn.alphabets)) }
        ensures passes { IfOk result (λ opened. opened.2.items ≡ new_passes N.turn.sessions) }
    {
        let TurnBlank {
            table,
            seat,
            sites,
            sessions,
        } = blank;
        let journal = Journal::open(alloc, capacity)?;
        let order = Order::new(table);
        let mut records = Records::new(seat);
        let fronts = first_fronts(alloc, &order, &mut records, sites)?;
        let passes = first_passes(alloc, &order, &mut records, sessions)?;
        let ready = TurnReady {
            order,
            ledger: Ledger::new(journal, records),
        };
        Ok((ready, fronts, passes))
    }

    /// Begins the turn with a kept value that stands for no entry. It is refused for want of memory alone; the value
    /// comes back then.
    pub fn begin<K: Keeps>(self, alloc: Global, kept: K) -> Result<Turn<K, N>, TurnRefused<K>>
        requires { K.stands [] kept }
        ensures { IfErr result (λ refused. refused.kept ≡ kept) }
    {
        let TurnReady { order, ledger } = self;
        let row = lay(alloc, Beside { ledger, kept })?;
        Ok(Turn::of(row, order))
    }
}

// A row of the one place.
fn lay<K: Keeps, N: TurnName>(
    alloc: Global,
    beside: Beside<K, N>,
) -> Result<Row<Locked<K, N>>, TurnRefused<K>>
    requires enlisted { beside.ledger.enlisted ≡ [] }
    requires kept { K.stands beside.ledger.entries beside.kept }
    ensures one { IfOk result (λ row. row ≡ 1) }
    ensures refused { IfErr result (λ refused. refused.kept ≡ beside.kept) }
{
    let beside = match Box::new(alloc, beside) {
        Ok(beside) => beside,
        Err(AllocFailed { value }) => {
            let Beside { ledger: _, kept } = value;
            return Err(TurnRefused { kept });
        }
    };
    let room = Vec::with_capacity(alloc, 1);
    let Ok(mut values) = room else {
        let Beside { ledger: _, kept } = Box::into_inner(beside);
        return Err(TurnRefused { kept });
    };
    values.push_reserved(Locked { beside });
    let opened = Row::open(alloc, values);
    let refused = match opened {
        Ok(row) => return Ok(row),
        Err(refused) => refused,
    };
    let RowRefused { mut values } = refused;
    let popped = values.pop();
    let Some(Locked { beside }) = popped else {
        unreachable!()
    };
    values.destroy_empty();
    let Beside { ledger: _, kept } = Box::into_inner(beside);
    Err(TurnRefused { kept })
}

// The front of each site, taken out of the records of all.
fn first_fronts<N: TurnName>(
    alloc: Global,
    order: &Order<N>,
    records: &mut Records<N>,
    sites: u16,
) -> Result<Vec<Front<N>>, NoMemory>
    requires { records.old ≡ everyone sites N.turn.sessions }
    ensures fronts { IfOk result (λ fronts. fronts.items ≡ new_fronts sites) }
    ensures records { OnOk result (records.new ≡ journal_and_sessions 0 N.turn.sessions) }
{
    let mut fronts = Vec::with_capacity(alloc, usize::from(sites))?;
    for i in 0..sites {
        fronts.push_reserved(Front::new(SiteId(i), 0, records.cut(order)));
    }
    Ok(fronts)
}

// The pass of each session, taken out of the records that are left.
fn first_passes<N: TurnName>(
    alloc: Global,
    order: &Order<N>,
    records: &mut Records<N>,
    sessions: u32,
) -> Result<Vec<Pass<N>>, NoMemory>
    requires sessions { sessions ≡ N.turn.sessions }
    requires records { records.old ≡ journal_and_sessions 0 sessions }
    ensures passes { IfOk result (λ passes. passes.items ≡ new_passes sessions) }
    ensures records { OnOk result (records.new ≡ all_know [] []) }
{
    let mut passes = Vec::with_capacity(alloc, sessions as usize)?;
    for k in 0..sessions {
        passes.push_reserved(Pass::new(k, records.cut(order)));
    }
    Ok(passes)
}
