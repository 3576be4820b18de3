ghost use Rattle.std.specs.Prelude.{◌≡◌, ◌≢◌, true, false, ℕ, ◌+◌, ◌*◌, ◌<◌, ◌≤◌, ◌&&◌, List, length, IfOk};
ghost use Rattle.dcr_set.specs.EventSet.{Set, has, those};
ghost use Rattle.dcr_graph.specs.GraphValue.{rules_of};
ghost use Rattle.dcr_graph.specs.declared.kind.Kind.{Kind};
ghost use Rattle.dcr_proj.specs.CoverValue.{atoms_of};
ghost use Rattle.dcr_proj.specs.Masks.{AreMasks, KeepsMasks};
ghost use Rattle.dcr_proj.specs.Rows.{AreGuards, AreEffects};

use crate::masks::{Masks, Place};
use crate::once::{Alike, Once};
use dcr_graph::{Graph, Kind};
use dcr_set::{EventId, EventSet, NoMemory};
use std::alloc::Global;

/// The places of the masks that guard an owned event. Each is that of no event for any other atom.
#[derive(Clone, Copy)]
pub struct GuardRow {
    pub condition: Place,
    pub milestone: Place,
}

/// The places of the masks of what an event of the alphabet does. Each is that of no event for any other atom.
#[derive(Clone, Copy)]
pub struct EffectRow {
    pub response: Place,
    pub include: Place,
    pub exclude: Place,
    pub cancel: Place,
}

/// What stands for an atom.
#[derive(Clone, Copy)]
pub struct EventRow {
    pub guards: GuardRow,
    pub effects: EffectRow,
}

/// The rows of all atoms: for each the number of its row, and the rows that are different.
pub struct EventRows {
    pub rows: Vec<EventRow>,
    pub numbers: Vec<u16>,
}

impl GuardRow {
    ghost use Rattle.dcr_proj.specs.Rows.{guards_of, IsGuardRow};

    // Whether both are the same.
    fn is_same(&self, other: &GuardRow) -> bool
        ensures same { result ≡ true → self.now ≡ other.now }
        ensures other { result ≡ false → self.now ≢ other.now }
    {
        self.condition.is_same(&other.condition) && self.milestone.is_same(&other.milestone)
    }

    // Of an atom that isn't owned.
    fn nothing() -> GuardRow
        ensures { (masks : List Set) → AreMasks masks → AreGuards masks result }
    {
        GuardRow {
            condition: Place::nothing(),
            milestone: Place::nothing(),
        }
    }

    // Of one atom. Its masks are kept where it is in the set.
    fn of(
        graph: &Graph,
        own: &EventSet,
        e: EventId,
        masks: &mut Masks,
    ) -> Result<GuardRow, NoMemory>
        requires atom { e < length graph.now.names }
        requires room { atoms_of masks.old.sets.items.items ≡ length graph.now.names }
        requires most { length masks.old.sets.items.items + 1 < 65536 }
        ensures kept { KeepsMasks masks.old.sets.items.items masks.new.sets.items.items }
        ensures more { length masks.new.sets.items.items ≤ length masks.old.sets.items.items + 2 }
        ensures row { IfOk result (λ row. IsGuardRow (has own.now) (guards_of (rules_of graph.now)) masks.new.sets.items.items e row) }
    {
        if !own.contains(e) {
            return Ok(GuardRow::nothing());
        }
        let condition = masks.keep(graph.sources(Kind::Condition, e).copy())?;
        let milestone = masks.keep(graph.sources(Kind::Milestone, e).copy())?;
        Ok(GuardRow {
            condition,
            milestone,
        })
    }
}

impl EffectRow {
    ghost use Rattle.dcr_proj.specs.Rows.{effects_within, IsEffectRow};

    // Whether both are the same.
    fn is_same(&self, other: &EffectRow) -> bool
        ensures same { result ≡ true → self.now ≡ other.now }
        ensures other { result ≡ false → self.now ≢ other.now }
    {
        self.response.is_same(&other.response)
            && self.include.is_same(&other.include)
            && self.exclude.is_same(&other.exclude)
            && self.cancel.is_same(&other.cancel)
    }

    // Of an atom that isn't of the alphabet.
    fn nothing() -> EffectRow
        ensures { (masks : List Set) → AreMasks masks → AreEffects masks result }
    {
        EffectRow {
            response: Place::nothing(),
            include: Place::nothing(),
            exclude: Place::nothing(),
            cancel: Place::nothing(),
        }
    }

    // Of one atom, for a site that tracks the included and the pending marks of these. Its masks are kept where it is
    // in the alphabet.
    fn of(
        graph: &Graph,
        tracked_in: &EventSet,
        tracked_re: &EventSet,
        alphabet: &EventSet,
        e: EventId,
        masks: &mut Masks,
    ) -> Result<EffectRow, NoMemory>
        requires atom { e < length graph.now.names }
        requires tracked_in { length tracked_in.now ≡ length graph.now.names }
        requires tracked_re { length tracked_re.now ≡ length graph.now.names }
        requires room { atoms_of masks.old.sets.items.items ≡ length graph.now.names }
        requires most { length masks.old.sets.items.items + 3 < 65536 }
        ensures kept { KeepsMasks masks.old.sets.items.items masks.new.sets.items.items }
        ensures more { length masks.new.sets.items.items ≤ length masks.old.sets.items.items + 4 }
        ensures row { IfOk result (λ row. IsEffectRow (has alphabet.now)
            (effects_within (rules_of graph.now) tracked_in.now tracked_re.now) masks.new.sets.items.items e row) }
    {
        if !alphabet.contains(e) {
            return Ok(EffectRow::nothing());
        }
        let response = masks.keep(cut_targets(graph, Kind::Response, e, tracked_re))?;
        let include = masks.keep(cut_targets(graph, Kind::Include, e, tracked_in))?;
        let exclude = masks.keep(cut_targets(graph, Kind::Exclude, e, tracked_in))?;
        let cancel = masks.keep(cut_targets(graph, Kind::Cancel, e, tracked_re))?;
        Ok(EffectRow {
            response,
            include,
            exclude,
            cancel,
        })
    }
}

impl Alike for EventRow {
    fn is_like(&self, other: &EventRow) -> bool {
        self.guards.is_same(&other.guards) && self.effects.is_same(&other.effects)
    }

    fn mixed(&self) -> u64 {
        let places = [
            self.guards.condition,
            self.guards.milestone,
            self.effects.response,
            self.effects.include,
            self.effects.exclude,
            self.effects.cancel,
        ];
        let mut mixed = 0u64;
        for place in places {
            mixed = (mixed.rotate_left(11) ^ u64::from(place.number)).wrapping_mul(MIX);
        }
        mixed
    }
}

// By which numbers are mixed.
const MIX: u64 = 0x9E37_79B9_7F4A_7C15;

impl EventRows {
    ghost use Rattle.dcr_proj.specs.Rows.{guards_of, effects_within, HasRow};

    /// Of each atom. The masks of what guards the owned events are kept, and those of what the events of the alphabet do.
    pub fn of(
        alloc: Global,
        graph: &Graph,
        own: &EventSet,
        tracked_in: &EventSet,
        tracked_re: &EventSet,
        alphabet: &EventSet,
        masks: &mut Masks,
    ) -> Result<EventRows, NoMemory>
        requires tracked_in { length tracked_in.now ≡ length graph.now.names }
        requires tracked_re { length tracked_re.now ≡ length graph.now.names }
        requires room { atoms_of masks.old.sets.items.items ≡ length graph.now.names }
        requires most { length masks.old.sets.items.items + 6 * length graph.now.names < 65536 }
        ensures room { IfOk result (λ _. atoms_of masks.new.sets.items.items ≡ length graph.now.names) }
        ensures len { IfOk result (λ each. length each.numbers.items ≡ length graph.now.names) }
        ensures rows { IfOk result (λ each. (e : ℕ) → e < length graph.now.names
            → HasRow (has own.now) (has alphabet.now) (guards_of (rules_of graph.now)) (effects_within (rules_of graph.now) tracked_in.now tracked_re.now)
            masks.new.sets.items.items each.rows.items each.numbers.items e) }
    {
        let mut rows = Once::of(
            alloc,
            EventRow {
                guards: GuardRow::nothing(),
                effects: EffectRow::nothing(),
            },
        )?;
        let mut numbers = Vec::with_capacity(alloc, usize::from(graph.atoms()))?;
        for number in 0..graph.atoms() {
            let e = EventId(number);
            let guards = GuardRow::of(graph, own, e, masks)?;
            let effects = EffectRow::of(graph, tracked_in, tracked_re, alphabet, e, masks)?;
            let kept = rows.keep(EventRow { guards, effects })?;
            numbers.push(kept)?;
        }
        Ok(EventRows {
            rows: rows.into_items(),
            numbers,
        })
    }
}

// The targets of an event that are in the set.
fn cut_targets(graph: &Graph, kind: Kind, e: EventId, within: &EventSet) -> EventSet
    requires atom { e < length graph.now.names }
    requires room { length within.now ≡ length graph.now.names }
    ensures targets { result ≡ those (length graph.now.names) (λ b. (rules_of graph.now).related kind e b && has within.now b) }
    ensures room { length result ≡ length graph.now.names }
{
    graph.targets(kind, e).common(within)
}
