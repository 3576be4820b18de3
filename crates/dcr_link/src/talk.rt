ghost use Rattle.std.specs.Prelude.{◌≡◌, ◌≢◌, ◌⊎◌, ◌+◌, ◌<◌, ◌≤◌, ◌++◌, ℕ, List, [], false, length, Some, None, IsSome, IsTrue, IsFalse, IfOk};
ghost use Rattle.std.specs.Io.KnownBytes.{Appends};
ghost use Rattle.dcr_base.specs.Count.{Rose};
ghost use Rattle.dcr_journal.specs.Run.{made_by};
ghost use Rattle.dcr_cluster.specs.Calls.{Shows};
ghost use Rattle.dcr_link.specs.Replies.{made_since, most_lines};
ghost use Rattle.dcr_link.specs.Serving.{CountsAnswer, CountsCause, Serves};
ghost use Rattle.dcr_link.specs.Talking.{CutsNext, Going, GoesOn, IsNamedBy, bytes_spare};
ghost use Rattle.dcr_link.specs.declared.end.WorkCause.TheVariants.{Ended, Halted};

use crate::{Scene, WorkCause};
use dcr_base::{Disk, Failed, Gate, Link, write_all};
use dcr_cell::StoreName;
use dcr_cluster::Cluster;
use dcr_set::NoMemory;
use dcr_text::{Cut, LineCutter};
use dcr_turn::Pass;
use std::alloc::Global;
use std::marker::Model;
use std::sync::Wait;

// The most bytes of a line before its line end.
const MOST_BYTES: usize = 200;

// The most lines that are answered.
const MOST_LINES: u32 = 200_000;

// What one read asks for at most.
const PIECE: usize = 4096;

// Room for a reply that names some hundred atoms.
const COMMON_REPLY: usize = 4096;

/// What is kept between the lines of a session over a link. Contracts see the names and the policy, what came since the last
/// line end, how many lines were cut off, and the last reply.
#[derive(Drop)]
pub(crate) struct Talk<'s, 'n> {
    pub(crate) scene: &'s Scene<'n>,
    pub(crate) cutter: LineCutter,
    lines: u32,
    pub(crate) reply: Vec<u8>,
}

impl<'s, 'n> Model for Talk<'s, 'n> {
    ghost use Rattle.dcr_link.specs.TalkModel.{TalkValue, talk_of, IsTalk};

    ghost Value = { TalkValue };

    ghost view = { talk_of };

    ghost invariant = { IsTalk };
}

impl<'s, 'n> Talk<'s, 'n> {
    /// Of a scene, with nothing come. `NoMemory` where memory could not be had.
    pub(crate) fn new(alloc: Global, scene: &'s Scene<'n>) -> Result<Talk<'s, 'n>, NoMemory>
        ensures terms { IfOk result (λ talk. talk.terms ≡ scene.now) }
        ensures lines { IfOk result (λ talk. talk.lines ≡ 0) }
        ensures cutter { IfOk result (λ talk. (talk.cutter.bytes ≡ []) × (talk.cutter.is_line ≡ false) × (talk.cutter.is_long ≡ false)) }
    {
        Ok(Talk {
            scene,
            cutter: LineCutter::new(alloc, MOST_BYTES)?,
            lines: 0,
            reply: Vec::with_capacity(alloc, COMMON_REPLY)?,
        })
    }

    /// Reads the link and answers its lines until the session ends.
    pub(crate) fn hold<D: Disk, G: Gate, N: StoreName<D>, L: Link, R: Wait>(
        &mut self,
        rt: &R,
        cluster: &Cluster<D, G, N>,
        pass: &mut Pass<N>,
        link: &mut L,
    ) -> WorkCause
        requires named { IsNamedBy N.cluster self.old }
        requires counted { pass.old.made ≡ made_by pass.old.session pass.old.front }
        requires new { (self.old.lines ≡ 0) × (self.old.cutter.bytes ≡ []) × (self.old.cutter.is_line ≡ false) × (self.old.cutter.is_long ≡ false) }
        ensures session { pass.new.session ≡ pass.old.session }
        ensures serves { Serves N.first N.capacity self.old.terms pass.old pass.new
            (L.gives link.old) (L.gives link.new) (L.takes link.old) (L.takes link.new)
            (record { calls = length (made_since pass.old pass.new); cause = result }) }
        ensures no_fewer { pass.old.made ≤ pass.new.made }
        ensures ended { result ≡ Ended → L.has_ended link.new }
        ensures counts { CountsCause result (L.gives link.old).faults (L.gives link.new).faults (L.takes link.old).faults (L.takes link.new).faults }
        ensures halted { (halt : _) → result ≡ Halted halt → Shows N.first N.capacity pass.new.front halt }
        ensures told { IsSome (L.gives link.old).bytes → IsSome (L.gives link.new).bytes }
    {
        let mut piece = [0; PIECE];
        loop {
            match link.read(&mut piece) {
                Err(Failed) => return WorkCause::LinkFault,
                Ok(0) => return WorkCause::Ended,
                Ok(n) => {
                    if let Some(cause) = self.answer_all(rt, cluster, pass, &piece[..n], link) {
                        return cause;
                    }
                }
            }
        }
    }

    // Answers the lines that end in a piece. None where it was used whole, and else why the session ends.
    fn answer_all<D: Disk, G: Gate, N: StoreName<D>, L: Link, R: Wait>(
        &mut self,
        rt: &R,
        cluster: &Cluster<D, G, N>,
        pass: &mut Pass<N>,
        piece: &[u8],
        link: &mut L,
    ) -> Option<WorkCause>
        requires named { IsNamedBy N.cluster self.old }
        ensures terms { self.new.terms ≡ self.old.terms }
        ensures session { pass.new.session ≡ pass.old.session }
        ensures goes_on { (before : _) (came written : List ℕ) → Going N.cluster N.first N.capacity self.old.terms before pass.old self.old came written
            → (more : List ℕ) × Appends (L.takes link.old).bytes (L.takes link.new).bytes more
            × GoesOn N.cluster N.first N.capacity self.old.terms before pass.new self.new (came ++ piece.now) (written ++ more)
            (Rose (L.takes link.old).faults (L.takes link.new).faults) result }
        ensures no_fewer { pass.old.made ≤ pass.new.made }
        ensures spare { result ≡ None → bytes_spare self.new + length piece.now ≤ bytes_spare self.old }
        ensures counts { CountsAnswer result (L.takes link.old).faults (L.takes link.new).faults }
        ensures halted { (halt : _) → result ≡ Some (Halted halt) → Shows N.first N.capacity pass.new.front halt }
        ensures apart { L.source_side link.new ≡ L.source_side link.old }
    {
        let mut used = 0;
        while used < piece.len() {
            if self.is_full() {
                let _ = write_all(link, b"many-lines\n");
                return Some(WorkCause::ManyLines);
            }
            let (more, cut) = self.cut(&piece[used..]);
            used += more;
            match cut {
                Cut::More => {}
                Cut::Line => {
                    if let Some(cause) = self.answer(rt, cluster, pass, link) {
                        return Some(cause);
                    }
                }
                Cut::TooLong => {
                    let _ = write_all(link, b"long-line\n");
                    return Some(WorkCause::LongLine);
                }
            }
        }
        None
    }

    // Whether no line more may be answered.
    fn is_full(&self) -> bool
        ensures full { IsTrue result → self.now.lines ≡ most_lines }
        ensures spare { IsFalse result → self.now.lines < most_lines }
    {
        self.lines == MOST_LINES
    }

    // Takes bytes up to the first line end, and counts the line.
    fn cut(&mut self, piece: &[u8]) -> (usize, Cut)
        requires { self.old.lines < most_lines }
        ensures cuts { CutsNext self.old piece.now result.0 result.1 self.new }
        ensures within { result.0 ≤ length piece.now }
    {
        let (used, cut) = self.cutter.take(piece);
        if let Cut::Line = cut {
            self.lines += 1;
        }
        (used, cut)
    }
}
