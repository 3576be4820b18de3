use dcr_base::Gate;
use std::sync::Wait;
use std::sync::atomic::{AtomicBool, Ordering};
use std::thread::yield_now;

/// A call that waits at a gate for another one. A call is named by its session and its number among the session's calls,
/// from 0.
#[derive(Clone, Copy, Debug, PartialEq, Eq)]
pub struct Hold {
    /// The call that waits.
    pub at: (u32, u32),
    /// The call that it waits for, which has to reach the gate.
    pub until: (u32, u32),
    /// How many turns it waits at most. At each it lets other threads run.
    pub turns: u64,
}

/// A [`Gate`] that holds one call or two, and notes whether they waited all their turns. A reference to it is a gate too
/// (as one to each gate), so that it can be asked afterwards. Nothing is promised of it.
#[derive(Drop)]
pub struct HoldGate {
    first: Held,
    second: Option<Held>,
}

// A hold, and what came of it.
#[derive(Drop)]
struct Held {
    hold: Hold,
    // The call that is waited for has reached the gate.
    reached: AtomicBool,
    // The turns are spent.
    spent: AtomicBool,
}

impl HoldGate {
    /// A gate with these holds. Takes no memory.
    pub fn new(first: Hold, second: Option<Hold>) -> HoldGate {
        HoldGate {
            first: Held::new(first),
            second: second.map(|hold| Held::new(hold)),
        }
    }

    /// Whether the call of the first hold waited all its turns.
    pub fn first_spent(&self) -> bool {
        self.first.spent.load(Ordering::SeqCst)
    }

    /// Whether that of the second one did. Not where there is none.
    pub fn second_spent(&self) -> bool {
        match &self.second {
            Some(held) => held.spent.load(Ordering::SeqCst),
            None => false,
        }
    }
}

impl Held {
    fn new(hold: Hold) -> Held {
        Held {
            hold,
            reached: AtomicBool::new(false),
            spent: AtomicBool::new(false),
        }
    }

    // Notes that a call has reached the gate.
    fn note(&self, call: (u32, u32)) {
        if self.hold.until == call {
            self.reached.store(true, Ordering::SeqCst);
        }
    }

    // Lets the call wait, where it is the one that is held.
    fn wait(&self, call: (u32, u32)) {
        if self.hold.at != call {
            return;
        }
        for _ in 0..self.hold.turns {
            if self.reached.load(Ordering::SeqCst) {
                return;
            }
            yield_now();
        }
        self.spent.store(true, Ordering::SeqCst);
    }
}

impl Gate for HoldGate {
    fn at<R: Wait>(&self, _: &R, session: u32, seq: u32) {
        let call = (session, seq);
        self.first.note(call);
        if let Some(second) = &self.second {
            second.note(call);
        }
        self.first.wait(call);
        if let Some(second) = &self.second {
            second.wait(call);
        }
    }
}
