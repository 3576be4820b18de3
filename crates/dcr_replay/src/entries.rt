// The lines of entries, checked one after the other.
ghost use Rattle.std.specs.Prelude.{◌≡◌, ◌+◌, ◌<◌, ◌≤◌, ◌||◌, nat_le, [], ◌∷◌, ◌++◌, List, length, IfOk, IfSome, MatchOption, Decides, Bool, IsTrue, false, slice_index_or, None, Some, Ok};
ghost use Rattle.std.specs.List.{All};
ghost use Rattle.std.specs.Str.{bytes_eq};
ghost use Rattle.dcr_graph.specs.GraphValue.{rules_of};
ghost use Rattle.dcr_graph.specs.Projection.{HasRoom};
ghost use Rattle.dcr_journal.specs.Run.{IsInRange, stepped_by};
ghost use Rattle.dcr_journal.specs.declared.call.Entry.{Entry};
ghost use Rattle.dcr_line.specs.DirectoryModel.{named};
ghost use Rattle.dcr_line.specs.Fits.{FitsEntry};
ghost use Rattle.dcr_line.specs.Line.{entry_text};
ghost use Rattle.dcr_text.specs.Lines.{line_of};
ghost use Rattle.dcr_replay.specs.EntryLines.{IsAnswered, IsNext, IsWrongNext, MayCome, Setting, is_done, is_faulted};
ghost use Rattle.dcr_replay.specs.Stands.{HasPlace, IsOver, IsSound, Stands, Takes};
ghost use Rattle.dcr_proj.specs.CoverValue.{IsCover};
ghost use Rattle.dcr_replay.specs.declared.verdict.Wrong.TheVariants as wrong;

use crate::answer::answer;
use crate::lines::Line;
use crate::tracked::{Tracked, tracked_by_each};
use crate::verdict::Wrong;
use dcr_graph::{Graph, Marking};
use dcr_journal::{Call, Entry, Outcome};
use dcr_line::{Directory, Head, read_entry, read_head, write_entry};
use dcr_mark::Plain;
use dcr_proj::Cover;
use dcr_set::NoMemory;
use std::alloc::Global;

// How many entries a history has at most.
const MAX_ENTRIES: u32 = 200_000;

// How many sessions there are at most.
const MAX_SESSIONS: usize = 1024;

/// A history under check: the engine at the marking after the entries that were read, and what the next one
/// must say of itself.
#[derive(Drop)]
pub(crate) struct Run<'g, 'n> {
    pub graph: &'g Graph,
    pub cover: &'g Cover,
    pub directory: &'g Directory<'n>,
    pub tracked: Vec<Tracked>,
    pub plain: Plain<'g>,
    // How many entries each session has.
    pub made: Vec<u32>,
    pub len: u32,
    // The last entry is a fault: none comes after it.
    pub faulted: bool,
}

impl<'g, 'n> Run<'g, 'n> {
    /// No entry yet.
    pub(crate) fn open(
        alloc: Global,
        graph: &'g Graph,
        cover: &'g Cover,
        directory: &'g Directory<'n>,
        opening: &Marking,
    ) -> Result<Run<'g, 'n>, NoMemory>
        requires directory { directory.now ≡ named cover.now.names graph.now.names }
        requires rooms { All (λ set. length set ≡ length graph.now.names) cover.now.owned }
        requires cover { IsCover cover.now }
        requires opening { HasRoom (length graph.now.names) opening.now }
        ensures sound { IfOk result IsSound }
        ensures stands { IfOk result (λ run. (S : Setting) → IsOver S graph.now cover.now → opening.now ≡ S.opening → Stands S [] run) }
    {
        let tracked = tracked_by_each(alloc, graph, cover)?;
        let plain = Plain::new(alloc, graph, opening)?;
        let made = vec![in alloc; 0; MAX_SESSIONS]?;
        Ok(Run {
            graph,
            cover,
            directory,
            tracked,
            plain,
            made,
            len: 0,
            faulted: false,
        })
    }

    /// Takes the entry that a line tells. Where the answer is a kind, the line is wrong by it, and nothing was
    /// taken. A line that tells no entry which may come next is refused, whatever memory there is. The room is where
    /// texts are made that the line is compared with; what is in it before and after says nothing.
    pub(crate) fn take(
        &mut self,
        line: Line<'_>,
        room: &mut Vec<u8>,
    ) -> Result<Option<Wrong>, NoMemory>
        requires { IsSound self.old }
        ensures sound { IsSound self.new }
        ensures taken { IfOk result (λ wrong. (S : Setting) (J : List Entry) → Stands S J self.old
            → Takes S J (line_of line.entry.text.now line.entry.ended) wrong self.new) }
        ensures kept { IfOk result (λ wrong. IfSome wrong (λ _. self.new ≡ self.old)) }
        ensures no_entry { (S : Setting) (J : List Entry) → Stands S J self.old
            → IsWrongNext S J (line_of line.entry.text.now line.entry.ended) wrong.Entry → result ≡ Ok (Some wrong.Entry) }
    {
        if self.take_answered(line, room) {
            return Ok(None);
        }
        self.take_read(line, room)
    }

    // As `take`, where the whole line is read: also its outcome, which tells how the line is wrong.
    fn take_read(&mut self, line: Line<'_>, room: &mut Vec<u8>) -> Result<Option<Wrong>, NoMemory>
        requires { IsSound self.old }
        ensures sound { IsSound self.new }
        ensures taken { IfOk result (λ wrong. (S : Setting) (J : List Entry) → Stands S J self.old
            → Takes S J (line_of line.entry.text.now line.entry.ended) wrong self.new) }
        ensures kept { IfOk result (λ wrong. IfSome wrong (λ _. self.new ≡ self.old)) }
        ensures no_entry { (S : Setting) (J : List Entry) → Stands S J self.old
            → IsWrongNext S J (line_of line.entry.text.now line.entry.ended) wrong.Entry → result ≡ Ok (Some wrong.Entry) }
    {
        let Some(entry) = self.next_entry(line) else {
            return Ok(Some(Wrong::Entry));
        };
        if !self.is_answered(line.text, &entry, room)? {
            return Ok(Some(Wrong::Outcome));
        }
        self.count(&entry);
        Ok(None)
    }

    // Takes the entry whose outcome is the answer and whose text the line is. The outcome is not read: the text with the
    // answer is made, and the line compared with it. False says nothing, and then nothing was taken: another line is left
    // to `take_read`, and one for which there is no memory.
    fn take_answered(&mut self, line: Line<'_>, room: &mut Vec<u8>) -> bool
        requires { IsSound self.old }
        ensures sound { IsSound self.new }
        ensures taken { IsTrue result → (S : Setting) (J : List Entry) → Stands S J self.old
            → Takes S J (line_of line.entry.text.now line.entry.ended) None self.new }
        ensures kept { result ≡ false → self.new ≡ self.old }
    {
        let Some(text) = line.whole() else {
            return false;
        };
        let Some(head) = self.next_head(text) else {
            return false;
        };
        let outcome = answer(&self.plain, self.cover, &self.tracked, &head.call);
        let entry = Entry {
            session: head.session,
            seq: head.seq,
            call: head.call,
            outcome,
        };
        let Ok(true) = self.is_line(text, &entry, room) else {
            return false;
        };
        self.count(&entry);
        true
    }

    // The head that a text begins with, where an entry with it may come next if its place is the next.
    fn next_head(&self, text: &[u8]) -> Option<Head>
        requires { IsSound self.now }
        ensures comes { IfSome result (λ head. HasPlace self.now head.session head.seq) }
        ensures call { IfSome result (λ head. IsInRange (length self.now.cover.now.names) (length self.now.graph.now.names) head.call) }
    {
        if self.is_over() {
            return None;
        }
        let head = read_head(text, self.directory)?;
        let made = *self.made.get(head.session as usize)?;
        if head.seq != made {
            return None;
        }
        Some(head)
    }

    // Whether no further entry may come: the last one was a fault, or there are as many as there may be.
    fn is_over(&self) -> bool
        ensures { result ≡ (self.now.faulted || nat_le 200000 self.now.len) }
    {
        self.faulted || self.len >= MAX_ENTRIES
    }

    // The entry that a line tells, whatever its outcome. None exactly where it tells none that may come next.
    fn next_entry(&self, line: Line<'_>) -> Option<Entry>
        requires { IsSound self.now }
        ensures entry { (S : Setting) (J : List Entry) → Stands S J self.now → MatchOption result
            (IsWrongNext S J (line_of line.entry.text.now line.entry.ended) wrong.Entry)
            (IsNext S J (line_of line.entry.text.now line.entry.ended)) }
        ensures fits { IfSome result (FitsEntry (length self.now.cover.now.names) (length self.now.graph.now.names)) }
        ensures open { IfSome result (λ _. self.now.len < 200000) }
        ensures running { IfSome result (λ _. self.now.faulted ≡ false) }
        ensures session { IfSome result (λ entry. entry.session < 1024) }
    {
        if self.is_over() {
            return None;
        }
        let (place, entry) = read_entry(line.whole()?, self.directory)?;
        let made = *self.made.get(entry.session as usize)?;
        if place != self.len || entry.seq != made {
            return None;
        }
        Some(entry)
    }

    // Whether the outcome of the entry that the text tells is the answer, or a fault where the answer is done.
    fn is_answered(&self, text: &[u8], entry: &Entry, room: &mut Vec<u8>) -> Result<bool, NoMemory>
        requires sound { IsSound self.now }
        requires fits { FitsEntry (length self.now.cover.now.names) (length self.now.graph.now.names) entry.now }
        ensures { IfOk result (λ is. (S : Setting) (J : List Entry) (ended : Bool) → Stands S J self.now
            → IsNext S J (line_of text.now ended) entry.now → Decides is (IsAnswered S J entry.now)) }
    {
        let outcome = answer(&self.plain, self.cover, &self.tracked, &entry.call);
        if is_done(&outcome) && is_faulted(&entry.outcome) {
            return Ok(true);
        }
        let told = Entry {
            session: entry.session,
            seq: entry.seq,
            call: entry.call,
            outcome,
        };
        self.is_line(text, &told, room)
    }

    // Whether the text is that of the entry, at the next place. The entry's is made in the room, which is kept for the next.
    fn is_line(&self, text: &[u8], entry: &Entry, room: &mut Vec<u8>) -> Result<bool, NoMemory>
        requires { FitsEntry (length self.now.cover.now.names) (length self.now.graph.now.names) entry.now }
        ensures { IfOk result (λ is. is
            ≡ bytes_eq text.now (entry_text self.now.cover.now.names self.now.graph.now.names self.now.len entry.now)) }
    {
        room.clear();
        write_entry(self.len, entry, self.graph, self.cover, room)?;
        Ok(room.as_slice() == text)
    }

    // Counts the entry, and steps the marking where it was done.
    fn count(&mut self, entry: &Entry)
        requires sound { IsSound self.old }
        requires open { self.old.len < 200000 }
        requires session { entry.now.session < 1024 }
        requires fits { FitsEntry (length self.old.cover.now.names) (length self.old.graph.now.names) entry.now }
        requires running { self.old.faulted ≡ false }
        ensures sound { IsSound self.new }
        ensures stands { (S : Setting) (J : List Entry) → Stands S J self.old → MayCome S J entry.now
            → IsAnswered S J entry.now → Stands S (J ++ entry.now ∷ []) self.new }
    {
        step(&mut self.plain, self.cover, entry);
        self.faulted = is_faulted(&entry.outcome);
        self.made[entry.session as usize] += 1;
        self.len += 1;
    }
}

// Steps the marking by the event of the entry, where that was done.
fn step(plain: &mut Plain<'_>, cover: &Cover, entry: &Entry)
    requires { FitsEntry (length cover.now.names) (length plain.old.graph.names) entry.now }
    ensures graph { plain.new.graph ≡ plain.old.graph }
    ensures marking { plain.new.marking
        ≡ stepped_by (rules_of plain.old.graph) plain.old.marking entry.now.call entry.now.outcome }
{
    if let Call::Exec(_, e) = entry.call {
        if is_done(&entry.outcome) {
            plain.execute(e);
        }
    }
}

/// Whether the outcome is that of an event that was executed.
pub fn is_done(outcome: &Outcome) -> bool
    ensures { result ≡ is_done outcome.now }
{
    matches!(outcome, Outcome::Done)
}

// Whether the outcome is a fault.
fn is_faulted(outcome: &Outcome) -> bool
    ensures { result ≡ is_faulted outcome.now }
{
    matches!(outcome, Outcome::Faulted)
}
