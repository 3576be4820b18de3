// Row two passes, on one thread and on two.
ghost use Rattle.std.specs.Prelude.{◌≡◌, ◌↔◌, IsTrue};
ghost use Rattle.dcr_journal.specs.declared.call.Outcome.TheVariants.{Faulted};

use crate::build::{Anything, own_network};
use dcr_journal::{Call, Entry, Outcome};
use dcr_turn::{Front, Pass, Turn, TurnBlank, TurnName};
use std::alloc::Global;
use std::marker::Brand;
use std::process::Abort;
use std::sync::Wait;
use std::test::Fail;
use std::thread;
use std::thread::Threads;

type TwoParts<N> = (Turn<Anything, N>, Vec<Front<N>>, Pass<N>, Pass<N>);

fn is_fault(entry: &Entry) -> bool
    ensures { IsTrue result ↔ (entry.now.outcome ≡ Faulted) }
{
    matches!(&entry.outcome, Outcome::Faulted)
}

// The pass asks whether all is accepting, and is answered that all is done. Where there is no room, or a fault
// ends the list, it makes no call.
fn asked<N: TurnName, R: Wait>(rt: &R, turn: &Turn<Anything, N>, mut pass: Pass<N>) -> Pass<N> {
    let mut guard = turn.lock(rt);
    guard.meet(&mut pass);
    let faulted = match guard.last() {
        Some(entry) => is_fault(&entry),
        None => false,
    };
    if !faulted && guard.spare() > 0 {
        guard.push(&mut pass, Call::Accepting, &Outcome::AllDone);
    }
    guard.unlock();
    pass
}

// A turn of two sessions and capacity 3.
fn opened<N: TurnName>(alloc: Global, blank: TurnBlank) -> Result<TwoParts<N>, Fail>
    requires turn { blank ≡ N.turn }
    requires capacity { N.capacity ≡ 3 }
{
    let opened = Turn::<Anything, N>::open(alloc, blank, 3, Anything);
    let Ok((turn, fronts, mut passes)) = opened else {
        return Err(Fail::new("no memory"));
    };
    let second = passes.pop().ok_or("two passes")?;
    let first = passes.pop().ok_or("two passes")?;
    Ok((turn, fronts, first, second))
}

// Both made one call, of which the first pass knows then. Tells the sessions in the order of their calls.
fn ended<N: TurnName, R: Wait + Abort>(
    rt: &R,
    alloc: Global,
    turn: Turn<Anything, N>,
    fronts: Vec<Front<N>>,
    mut first: Pass<N>,
    mut second: Pass<N>,
) -> Result<(u32, u32), Fail> {
    turn.learn(&mut first, &mut second);
    assert_eq!(rt; (first.session(), first.made(), first.seen()), (0, 1, 2));
    assert_eq!(rt; (second.session(), second.made()), (1, 1));
    let passes = Vec::from_array(alloc, [first, second])?;
    let (journal, Anything) = turn.close(rt, fronts, passes);
    assert_eq!(rt; (journal.len(), journal.spare()), (2, 1));
    let one = journal.get(0).ok_or("two entries")?;
    let two = journal.get(1).ok_or("two entries")?;
    assert_eq!(rt; (one.seq, two.seq), (0, 0));
    assert!(rt; one.call == Call::Accepting && two.call == Call::Accepting);
    Ok((one.session, two.session))
}

// Each makes its call, one after the other, or in two threads.
fn both<N: TurnName + Send + Sync, R: Threads + Wait + Abort + Sync>(
    rt: &R,
    alloc: Global,
    blank: TurnBlank,
    is_at_once: bool,
) -> Result<(), Fail>
    requires turn { blank ≡ N.turn }
    requires capacity { N.capacity ≡ 3 }
{
    let (turn, fronts, first, second) = opened::<N>(alloc, blank)?;
    let (first, second) = if is_at_once {
        thread::join(rt, || asked(rt, &turn, first), || asked(rt, &turn, second))
    } else {
        let first = asked(rt, &turn, first);
        (first, asked(rt, &turn, second))
    };
    let order = ended(rt, alloc, turn, fronts, first, second)?;
    assert!(rt; order == (0, 1) || is_at_once && order == (1, 0));
    Ok(())
}

#[test]
fn two_passes(rt: HostRuntime) -> Result<(), Fail> {
    for is_at_once in [false, true] {
        let network = own_network(rt.alloc(), 1)?;
        let blank = TurnBlank::new(rt.alloc(), &network, 2)?;
        both::<Brand, _>(&rt, rt.alloc(), blank, is_at_once)?;
    }
    Ok(())
}
