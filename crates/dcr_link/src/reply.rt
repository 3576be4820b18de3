// What a line is answered.
ghost use Rattle.std.specs.Prelude.{◌≡◌, ◌≤◌, ◌++◌, true, length, List, ℕ, Some, None, IfSome, OnOk};
ghost use Rattle.std.specs.Io.KnownBytes.{Appends};
ghost use Rattle.dcr_base.specs.Count.{Rose};
ghost use Rattle.dcr_text.specs.Cutting.{without_return};
ghost use Rattle.dcr_journal.specs.Run.{IsInRange};
ghost use Rattle.dcr_line.specs.CallLine.{call_in};
ghost use Rattle.dcr_link.specs.Replies.{asked_by, ended, halt_text};
ghost use Rattle.dcr_link.specs.Serving.{CountsAnswer};
ghost use Rattle.dcr_link.specs.Talking.{HasAnswered, HasLaid, HasReply, IsNamedBy, MayLay};

use crate::WorkCause;
use crate::talk::Talk;
use arrayvec::ArrayVec;
use dcr_base::{Disk, Gate, Link, write_all};
use dcr_cell::StoreName;
use dcr_cluster::{Cluster, Halt};
use dcr_journal::{Call, Entry, Outcome};
use dcr_set::NoMemory;
use dcr_text::decimal_is_one_number;
use dcr_turn::{Pass, TurnName};
use itoa::Buffer;
use std::sync::Wait;

impl<'s, 'n> Talk<'s, 'n> {
    /// Answers the line that was cut off, by one write. None where the session goes on, and else why it ends.
    pub(crate) fn answer<D: Disk, G: Gate, N: StoreName<D>, L: Link, R: Wait>(
        &mut self,
        rt: &R,
        cluster: &Cluster<D, G, N>,
        pass: &mut Pass<N>,
        link: &mut L,
    ) -> Option<WorkCause>
        requires named { IsNamedBy N.cluster self.old }
        requires line { self.old.cutter.is_line ≡ true }
        ensures same { self.new ≡ record self.old { reply = self.new.reply } }
        ensures session { pass.new.session ≡ pass.old.session }
        ensures no_fewer { pass.old.made ≤ pass.new.made }
        ensures answered { (written : List ℕ) × Appends (L.takes link.old).bytes (L.takes link.new).bytes written
            × HasAnswered N.cluster N.first N.capacity self.old.terms
            (asked_by self.old.terms pass.old.session self.old.cutter.bytes) pass.old pass.new written
            (Rose (L.takes link.old).faults (L.takes link.new).faults) result }
        ensures counts { CountsAnswer result (L.takes link.old).faults (L.takes link.new).faults }
        ensures apart { L.source_side link.new ≡ L.source_side link.old }
    {
        match self.reply_to(rt, cluster, pass) {
            Ok(None) => match write_all(link, self.reply()) {
                Ok(()) => None,
                Err(_) => Some(WorkCause::LinkFault),
            },
            Ok(Some(halt)) => {
                let _ = write_all(link, &halt_line(&halt));
                Some(WorkCause::Halted(halt))
            }
            Err(NoMemory) => Some(WorkCause::NoMemory),
        }
    }

    // Makes the call that the line asks for, where it is one that the policy allows, and lays the reply ready, or answers the
    // halt where the call halted. Where memory for the reply could not be had the call was made.
    fn reply_to<D: Disk, G: Gate, N: StoreName<D>, R: Wait>(
        &mut self,
        rt: &R,
        cluster: &Cluster<D, G, N>,
        pass: &mut Pass<N>,
    ) -> Result<Option<Halt>, NoMemory>
        requires named { IsNamedBy N.cluster self.old }
        requires line { self.old.cutter.is_line ≡ true }
        ensures same { self.new ≡ record self.old { reply = self.new.reply } }
        ensures reply { HasReply N.cluster N.first N.capacity self.old.terms
            (asked_by self.old.terms pass.old.session self.old.cutter.bytes) pass.old pass.new self.new.reply result }
    {
        let Some(call) = self.asked() else {
            self.say(b"bad-line", b"")?;
            return Ok(None);
        };
        let scene = self.scene;
        if let Some(role) = scene.deny(pass.session(), &call) {
            self.say(b"denied ", role.text().as_bytes())?;
            return Ok(None);
        }
        let answer = cluster.call(rt, pass, call);
        self.lay(pass, &call, answer)
    }

    // The call that the line asks for. None where it is none.
    fn asked(&self) -> Option<Call>
        requires line { self.now.cutter.is_line ≡ true }
        ensures call { result ≡ call_in self.now.terms.sites self.now.terms.atoms (without_return self.now.cutter.bytes) }
        ensures in_range { IfSome result (λ call. IsInRange (length self.now.terms.sites) (length self.now.terms.atoms) call) }
    {
        self.scene.call_of(self.cutter.line())
    }

    // The reply that lies ready.
    fn reply(&self) -> &[u8]
        ensures { result.now ≡ self.now.reply }
    {
        &self.reply
    }

    // Lays the reply to a line for which no call is made ready: these words, and more behind them.
    fn say(&mut self, words: &[u8], more: &[u8]) -> Result<(), NoMemory>
        ensures same { self.new ≡ record self.old { reply = self.new.reply } }
        ensures reply { OnOk result (self.new.reply ≡ ended (words.now ++ more.now)) }
    {
        self.reply.clear();
        self.reply.extend_from_slice(words)?;
        self.reply.extend_from_slice(more)?;
        self.reply.push(b'\n')?;
        Ok(())
    }

    // Lays the text of the entry that the pass has made last ready, or answers the halt.
    fn lay<N: TurnName>(
        &mut self,
        pass: &Pass<N>,
        call: &Call,
        answer: Result<Outcome, Halt>,
    ) -> Result<Option<Halt>, NoMemory>
        requires { MayLay self.old pass.now call.now answer }
        ensures same { self.new ≡ record self.old { reply = self.new.reply } }
        ensures reply { HasLaid self.old.terms pass.now call.now answer self.new.reply result }
    {
        match answer {
            Ok(outcome) => {
                let entry = Entry {
                    session: pass.session(),
                    seq: pass.made() - 1,
                    call: *call,
                    outcome,
                };
                self.reply.clear();
                self.scene.put(pass.seen() - 1, &entry, &mut self.reply)?;
                self.reply.push(b'\n')?;
                Ok(None)
            }
            Err(halt) => Ok(Some(halt)),
        }
    }
}

// What is told of a halt, with its line end.
fn halt_line(halt: &Halt) -> ArrayVec<u8, 32>
    ensures { result.items ≡ ended (halt_text halt.now) }
{
    // A number has 20 digits at most.
    decimal_is_one_number();
    let (word, n) = match halt {
        Halt::Full { capacity } => (b"full ".as_slice(), *capacity),
        Halt::Stopped { at } => (b"stopped ".as_slice(), *at),
    };
    let mut line = ArrayVec::new();
    let mut buffer = Buffer::new();
    let Ok(()) = line.try_extend_from_slice(word) else {
        unreachable!()
    };
    let Ok(()) = line.try_extend_from_slice(buffer.format(n).as_bytes()) else {
        unreachable!()
    };
    line.push(b'\n');
    line
}
