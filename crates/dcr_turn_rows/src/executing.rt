//! One call, as a site under its own lock and the journal under its lock make it.
ghost use Rattle.std.specs.Prelude.{◌≡◌, ◌<◌, length};
ghost use Rattle.dcr_turn_rows.specs.Own.{HaveOwnEvents};

use dcr_journal::{Call, Outcome};
use dcr_lock::{Placed, Row};
use dcr_set::{EventId, SiteId};
use dcr_turn::{Front, Keeps, Pass, Turn, TurnName};
use std::sync::Wait;

/// The front of the site that has the number of its place.
#[derive(Drop)]
pub struct Cell<N: TurnName> {
    pub front: Front<N>,
}

impl<N: TurnName> Placed for Cell<N> {
    ghost use Rattle.std.specs.Prelude.{◌≡◌};

    ghost belongs = { λ place cell. cell.front.site ≡ place };
}

/// A kept value that stands for the lists without a fault.
#[derive(Drop)]
pub struct NoFault;

impl Keeps for NoFault {
    ghost use Rattle.dcr_journal.specs.Run.{HasNoFault};

    ghost stands = { λ J _. HasNoFault J };
}

/// One execution at a site that alone hears of its event. False where there is no room.
pub fn executed<N: TurnName, R: Wait>(
    rt: &R,
    cells: &Row<Cell<N>>,
    turn: &Turn<NoFault, N>,
    pass: &mut Pass<N>,
    i: u16,
) -> bool
    requires place { i < cells.now }
    requires own { HaveOwnEvents N.turn.alphabets }
{
    let site = SiteId(i);
    let (grip, cell) = cells.lock(rt, i).split();
    let Cell { front } = cell;
    let mut guard = turn.lock(rt);
    guard.meet(pass);
    if guard.spare() == 0 {
        guard.unlock();
        grip.join(Cell { front }).unlock();
        return false;
    }
    let mut row = turn.row();
    turn.put_on(&mut row, front);
    guard.enlist_row(&mut row);
    guard.push(pass, Call::Exec(site, EventId(i)), &Outcome::Done);
    guard.dismiss_row(&mut row);
    guard.unlock();
    let front = turn.take_off(&mut row, site, pass);
    grip.join(Cell { front }).unlock();
    true
}

/// Lets the front of a site go, and tells how many entries it had seen. Nothing after them was of its alphabet.
pub fn let_go<N: TurnName, R: Wait>(rt: &R, turn: &Turn<NoFault, N>, front: Front<N>) -> u32
    ensures { result ≡ length front.front }
{
    let site = front.site();
    let seen = front.seen();
    let mut guard = turn.lock(rt);
    guard.enlist(front);
    drop(guard.dismiss(site));
    guard.unlock();
    seen
}
