//! Where workers that got into each other's way go one at a time.
ghost use Rattle.std.specs.Prelude.{◌≡◌, ◌<◌, IfOk};

use dcr_lock::{Held, Placed, Row};
use dcr_set::NoMemory;
use std::alloc::Global;
use std::sync::Wait;

// How many calls a worker makes before it lets the next one in.
const CALLS: u32 = 4_096;

/// What stands at the one place of a turnstile.
#[derive(Drop)]
pub(crate) struct Bar;

impl Placed for Bar {
    ghost belongs = { λ _ _. Unit {0} };
}

/// A lock that a worker takes which had to wait for another one in a call, and holds for some calls more: those who wait
/// for each other at every call lose more by it than by standing in line. A worker that never waits never comes here.
pub(crate) type Turnstile = Row<Bar>;

/// A turnstile that is open.
pub(crate) fn turnstile(alloc: Global) -> Result<Turnstile, NoMemory>
    ensures { IfOk result (λ row. row ≡ 1) }
{
    let mut bars = Vec::with_capacity(alloc, 1)?;
    bars.push_reserved(Bar);
    Ok(Row::open(alloc, bars)?)
}

/// How a worker goes on with its calls. It is not dropped: `leave` spends it.
pub(crate) enum Way<'a> {
    /// Beside all others.
    Beside,
    /// Alone of those who came to the turnstile, for so many calls more.
    Alone(Held<'a, Bar>, u32),
}

impl<'a> Way<'a> {
    /// After a call, which had to wait for a lock or had not.
    pub(crate) fn next<R: Wait>(self, rt: &R, turnstile: &'a Turnstile, waited: bool) -> Way<'a>
        requires { 0 < turnstile.now }
    {
        match self {
            Way::Alone(held, left) => {
                if left > 0 {
                    return Way::Alone(held, left - 1);
                }
                held.unlock();
                Way::Beside
            }
            Way::Beside => {
                if waited {
                    return Way::Alone(turnstile.lock(rt, 0), CALLS - 1);
                }
                Way::Beside
            }
        }
    }

    /// Lets the next worker in.
    pub(crate) fn leave(self) {
        match self {
            Way::Alone(held, _) => held.unlock(),
            Way::Beside => {}
        }
    }
}
