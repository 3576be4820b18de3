ghost use Rattle.std.specs.Prelude.{◌≡◌, ◌<◌, ◌*◌, min};

use std::thread;
use std::time::{Clock, Duration};

// The first pause but for none, and the longest one.
const FIRST_MILLIS: u64 = 10;

const LONGEST_MILLIS: u64 = 1_000;

/// How long to wait before something is tried again: at first not at all, then for 10 milliseconds, and then for twice as long
/// each time, up to a second.
#[derive(Drop)]
pub(crate) struct Pauses {
    millis: u64,
}

impl Pauses {
    /// None was made yet.
    pub(crate) fn new() -> Pauses {
        Pauses { millis: 0 }
    }

    /// Makes the next one.
    pub(crate) fn wait<R: Clock>(&mut self, rt: &R) {
        thread::sleep(rt, Duration::from_millis(self.millis));
        self.millis = longer(self.millis);
    }

    /// Begins with the first one again.
    pub(crate) fn begin_again(&mut self) {
        self.millis = 0;
    }
}

// The pause behind one of so many milliseconds.
fn longer(millis: u64) -> u64
    ensures first { millis ≡ 0 → result ≡ 10 }
    ensures doubled { 0 < millis → result ≡ min (2 * millis) 1000 }
{
    if millis == 0 {
        return FIRST_MILLIS;
    }
    millis.saturating_mul(2).min(LONGEST_MILLIS)
}
