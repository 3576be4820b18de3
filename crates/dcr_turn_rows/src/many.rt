// Eight threads with 64 sessions push 100,000 entries over 16 sites.
ghost use Rattle.std.specs.Prelude.{◌≡◌, length, IfOk};
ghost use Rattle.dcr_turn_rows.specs.Own.{HaveOwnEvents};

use crate::build::own_network;
use crate::executing::{Cell, NoFault, executed};
use dcr_journal::Journal;
use dcr_lock::Row;
use dcr_turn::{Front, Pass, Turn, TurnBlank, TurnName};
use std::alloc::Global;
use std::marker::Brand;
use std::process::Abort;
use std::sync::Wait;
use std::test::Fail;
use std::thread;
use std::thread::Threads;

const ENTRIES: u32 = 100_000;

// The fronts, each at the place of its site.
fn cells_of<N: TurnName>(alloc: Global, fronts: Vec<Front<N>>) -> Result<Row<Cell<N>>, Fail>
    ensures { IfOk result (λ row. row ≡ 16) }
{
    let mut cells = Vec::with_capacity(alloc, 16)?;
    for front in fronts {
        if usize::from(front.site().0) != cells.len() {
            return Err(Fail::new("fronts in order"));
        }
        cells.push(Cell { front })?;
    }
    if cells.len() != 16 {
        return Err(Fail::new("sixteen fronts"));
    }
    let opened = Row::open(alloc, cells);
    let Ok(row) = opened else {
        return Err(Fail::new("no memory"));
    };
    Ok(row)
}

// The fronts out of their places.
fn fronts_of<N: TurnName, R: Wait>(
    rt: &R,
    alloc: Global,
    cells: Row<Cell<N>>,
) -> Result<Vec<Front<N>>, Fail>
    requires { cells ≡ 16 }
{
    let mut fronts = Vec::with_capacity(alloc, 16)?;
    let mut end = cells.close();
    for place in 0..16u16 {
        let _ = place;
        let Cell { front } = end.take(rt);
        fronts.push_reserved(front);
    }
    end.finish();
    Ok(fronts)
}

// The calls of a session, at one site after the other, until there is no room.
fn work<N: TurnName, R: Wait>(
    rt: &R,
    cells: &Row<Cell<N>>,
    turn: &Turn<NoFault, N>,
    pass: &mut Pass<N>,
)
    requires places { cells.now ≡ 16 }
    requires own { HaveOwnEvents N.turn.alphabets }
{
    let first = (pass.session() % 16) as u16;
    for call in 0..1_600u16 {
        if !executed(rt, cells, turn, pass, (first + call) % 16) {
            return;
        }
    }
}

// How many calls each pass has made.
fn made_by<N: TurnName>(alloc: Global, passes: &[Pass<N>]) -> Result<Vec<u32>, Fail> {
    let mut made = Vec::new(alloc);
    for pass in passes {
        made.push(pass.made())?;
    }
    Ok(made)
}

// Each session's entries stand in the history once and in order.
fn check<R: Abort>(rt: &R, alloc: Global, journal: &Journal, made: &[u32]) -> Result<(), Fail> {
    assert_eq!(rt; journal.len(), ENTRIES);
    let mut counted = Vec::new(alloc);
    for _ in made {
        counted.push(0u32)?;
    }
    for place in 0..ENTRIES {
        let entry = journal.get(place).ok_or("an entry")?;
        let count = counted.get_mut(entry.session as usize).ok_or("a session")?;
        assert_eq!(rt; entry.seq, *count);
        *count = count.wrapping_add(1);
    }
    assert!(rt; counted.as_slice() == made);
    Ok(())
}

fn race<N: TurnName + Send + Sync, R: Threads + Wait + Abort + Sync>(
    rt: &R,
    alloc: Global,
    blank: TurnBlank,
) -> Result<(), Fail>
    requires turn { blank ≡ N.turn }
    requires capacity { N.capacity ≡ 100000 }
    requires own { HaveOwnEvents N.turn.alphabets }
    requires sites { length N.turn.alphabets ≡ 16 }
{
    let opened = Turn::<NoFault, N>::open(alloc, blank, ENTRIES, NoFault);
    let Ok((turn, fronts, mut passes)) = opened else {
        return Err(Fail::new("no memory"));
    };
    let cells = cells_of(alloc, fronts)?;
    thread::for_each_mut(
        rt,
        passes.as_mut_slice(),
        8,
        &|_, pass: &mut Pass<N>|
            requires { (cells ≡ 16) × HaveOwnEvents N.turn.alphabets }
        { work(rt, &cells, &turn, pass) },
    );
    let made = made_by(alloc, passes.as_slice())?;
    let fronts = fronts_of(rt, alloc, cells)?;
    let (journal, NoFault) = turn.close(rt, fronts, passes);
    check(rt, alloc, &journal, made.as_slice())
}

#[test]
fn eight_threads_push_100_000_entries(rt: HostRuntime) -> Result<(), Fail> {
    let network = own_network(rt.alloc(), 16)?;
    let blank = TurnBlank::new(rt.alloc(), &network, 64)?;
    race::<Brand, _>(&rt, rt.alloc(), blank)
}
