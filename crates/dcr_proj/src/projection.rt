ghost use Rattle.std.specs.Prelude.{◌≡◌, length, IfOk};
ghost use Rattle.dcr_set.specs.EventSet.{those};
ghost use Rattle.dcr_graph.specs.GraphValue.{rules_of};
ghost use Rattle.dcr_proj.specs.Local.{projection_of};
ghost use Rattle.dcr_proj.specs.Alphabet.{alphabet_within};

use crate::masks::{Masks, add_mask, first_open, first_within, mask_at, take_mask};
use crate::rows::{EventRow, EventRows};
use dcr_graph::{Graph, Kind, Marking, SiteMark};
use dcr_set::{EventId, EventSet, NoMemory};
use std::alloc::Global;
use std::marker::Model;

/// What one site keeps of a graph: its own events, the events whose marks it tracks, its alphabet, and of
/// the relations those alone that its decisions and its marks need. It is kept as masks: two for each
/// owned event, four for each event of the alphabet. Equal ones are kept once, but for a few; one that has no event, or one
/// alone, as most have where there are many sites, is read from the event's row. Contracts see it as `Local`.
#[derive(Drop)]
pub struct Projection {
    own: EventSet,
    tracked_in: EventSet,
    tracked_ex: EventSet,
    tracked_re: EventSet,
    alphabet: EventSet,
    // Each mask lies under its number. A row tells where the masks of an event lie; at the place of each atom stands the
    // number of its row.
    masks: Vec<EventSet>,
    rows: Vec<EventRow>,
    numbers: Vec<u16>,
}

impl Model for Projection {
    ghost use Rattle.dcr_proj.specs.Local.{Local};

    ghost Value = { Local };

    ghost use Rattle.dcr_proj.specs.ProjectionModel.{local_of, FitsLocal};

    ghost view = { local_of };

    ghost invariant = { FitsLocal };
}

impl Projection {
    ghost use Rattle.std.specs.Prelude.{◌≡◌, ◌<◌, ◌≤◌, List, Bool, true, false, length, IfOk, Some, slice_index_or, None};
    ghost use Rattle.dcr_set.specs.EventSet.{has, first_in_both_without, first_in_three};
    ghost use Rattle.dcr_graph.specs.Rules.{Rules};
    ghost use Rattle.dcr_graph.specs.Projection.{FitsAtoms, HasRoom, local_rules};
    ghost use Rattle.dcr_proj.specs.MarksAfter.{marks_after};
    ghost use Rattle.dcr_proj.specs.Rows.{is_guard, GuardMasks, EffectMasks};
    ghost use Rattle.dcr_proj.specs.Local.{cut_to};
    ghost use Rattle.dcr_proj.specs.ProjectionModel.{IsLocal};

    /// The owned events.
    pub fn own(&self) -> &EventSet
        ensures own { result.now ≡ self.now.own }
        ensures rooms { IsLocal self.now }
    {
        &self.own
    }

    /// The events whose included mark is tracked.
    pub fn tracked_in(&self) -> &EventSet
        ensures { result.now ≡ self.now.tracked_in }
    {
        &self.tracked_in
    }

    /// The events whose executed mark is tracked.
    pub fn tracked_ex(&self) -> &EventSet
        ensures tracked { result.now ≡ self.now.tracked_ex }
        ensures room { length result.now ≡ length self.now.own }
        ensures rooms { IsLocal self.now }
    {
        &self.tracked_ex
    }

    /// The events whose pending mark is tracked.
    pub fn tracked_re(&self) -> &EventSet
        ensures { result.now ≡ self.now.tracked_re }
    {
        &self.tracked_re
    }

    /// The events whose execution the site must hear of.
    pub fn alphabet(&self) -> &EventSet
        ensures alphabet { result.now ≡ self.now.alphabet }
        ensures room { length result.now ≡ length self.now.own }
    {
        &self.alphabet
    }

    /// The least condition event of an owned event that is included and not executed by these marks. None exactly where
    /// there is none.
    pub fn open_condition(&self, e: EventId, mark: &SiteMark) -> Option<EventId>
        requires owned { has self.now.own e ≡ true }
        requires rooms { FitsAtoms (length self.now.own) mark.now.executed mark.now.pending mark.now.included }
        ensures { (row : GuardMasks) × (slice_index_or self.now.guards e None ≡ Some row)
            × (result ≡ first_in_both_without row.condition mark.now.included mark.now.executed) }
    {
        let row = &self.rows[usize::from(self.numbers[usize::from(e.0)])];
        let place = &row.guards.condition;
        first_open(&self.masks, place, &mark.included, &mark.executed)
    }

    /// The least milestone event of an owned event that is included and pending by these marks. None exactly where there
    /// is none.
    pub fn pending_milestone(&self, e: EventId, mark: &SiteMark) -> Option<EventId>
        requires owned { has self.now.own e ≡ true }
        requires rooms { FitsAtoms (length self.now.own) mark.now.executed mark.now.pending mark.now.included }
        ensures { (row : GuardMasks) × (slice_index_or self.now.guards e None ≡ Some row)
            × (result ≡ first_in_three row.milestone mark.now.included mark.now.pending) }
    {
        let row = &self.rows[usize::from(self.numbers[usize::from(e.0)])];
        let place = &row.guards.milestone;
        first_within(&self.masks, place, &mark.included, &mark.pending)
    }

    /// Does to the marks what an execution of an event of the alphabet does to those that are tracked.
    pub fn apply(&self, e: EventId, mark: &mut SiteMark)
        requires heard { has self.now.alphabet e ≡ true }
        requires rooms { FitsAtoms (length self.now.own) mark.old.executed mark.old.pending mark.old.included }
        ensures marks { (row : EffectMasks) × (slice_index_or self.now.effects e None ≡ Some row)
            × (mark.new ≡ marks_after row (has self.now.tracked_ex e) mark.old e) }
        ensures rooms { FitsAtoms (length self.now.own) mark.new.executed mark.new.pending mark.new.included }
    {
        let row = &self.rows[usize::from(self.numbers[usize::from(e.0)])];
        let effects = &row.effects;
        if self.tracked_ex.contains(e) {
            mark.executed.insert(e);
        }
        mark.pending.remove(e);
        take_mask(&self.masks, &effects.cancel, &mut mark.pending);
        add_mask(&self.masks, &effects.response, &mut mark.pending);
        add_mask(&self.masks, &effects.include, &mut mark.included);
        take_mask(&self.masks, &effects.exclude, &mut mark.included);
    }

    /// The atoms that are related by the kind, condition or milestone, to an owned event.
    pub fn sources(&self, kind: Kind, e: EventId) -> &EventSet
        requires kind { is_guard kind ≡ true }
        requires owned { has self.now.own e ≡ true }
        ensures sources { (G : Rules) (S : List Bool) → self.now ≡ projection_of G S
            → result.now ≡ those G.atoms (λ a. (local_rules G S).related kind a e) }
        ensures room { length result.now ≡ length self.now.own }
    {
        let row = &self.rows[usize::from(self.numbers[usize::from(e.0)])].guards;
        match kind {
            Kind::Condition => mask_at(&self.masks, row.condition.number),
            Kind::Milestone => mask_at(&self.masks, row.milestone.number),
            _ => unreachable!(),
        }
    }

    /// The atoms that an event of the alphabet is related to by the kind, response, include, exclude or
    /// cancel: those alone whose mark of that sort is tracked.
    pub fn targets(&self, kind: Kind, e: EventId) -> &EventSet
        requires kind { is_guard kind ≡ false }
        requires heard { has self.now.alphabet e ≡ true }
        ensures targets { (G : Rules) (S : List Bool) → self.now ≡ projection_of G S
            → result.now ≡ those G.atoms (λ b. (local_rules G S).related kind e b) }
        ensures room { length result.now ≡ length self.now.own }
    {
        let row = &self.rows[usize::from(self.numbers[usize::from(e.0)])].effects;
        match kind {
            Kind::Response => mask_at(&self.masks, row.response.number),
            Kind::Include => mask_at(&self.masks, row.include.number),
            Kind::Exclude => mask_at(&self.masks, row.exclude.number),
            Kind::Cancel => mask_at(&self.masks, row.cancel.number),
            _ => unreachable!(),
        }
    }

    /// The marks of a marking that are tracked.
    pub fn start(&self, marking: &Marking) -> SiteMark
        requires { HasRoom (length self.now.own) marking.now }
        ensures cut { result ≡ cut_to self.now marking.now }
        ensures rooms { IsLocal self.now }
    {
        SiteMark {
            executed: marking.executed.common(&self.tracked_ex),
            pending: marking.pending.common(&self.tracked_re),
            included: marking.included.common(&self.tracked_in),
        }
    }
}

/// The projection of a graph to an owned set, whose room is the number of the graph's atoms.
pub fn project(alloc: Global, graph: &Graph, own: &EventSet) -> Result<Projection, NoMemory>
    requires { length own.now ≡ length graph.now.names }
    ensures { IfOk result (λ projection. projection ≡ projection_of (rules_of graph.now) own.now) }
{
    let conditions = graph.sources_into(Kind::Condition, own);
    let milestones = graph.sources_into(Kind::Milestone, own);
    let tracked_ex = own.joined(&conditions);
    let tracked_re = own.joined(&milestones);
    let tracked_in = own.joined(&conditions.joined(&milestones));
    let alphabet = alphabet_of(graph, &tracked_in, &tracked_re);
    let mut masks = Masks::new(alloc, graph.atoms())?;
    let EventRows { rows, numbers } = EventRows::of(
        alloc,
        graph,
        own,
        &tracked_in,
        &tracked_re,
        &alphabet,
        &mut masks,
    )?;
    Ok(Projection {
        own: own.copy(),
        tracked_in,
        tracked_ex,
        tracked_re,
        alphabet,
        masks: masks.into_sets(),
        rows,
        numbers,
    })
}

// What is tracked, and what may change a mark that is tracked.
fn alphabet_of(graph: &Graph, tracked_in: &EventSet, tracked_re: &EventSet) -> EventSet
    requires tracked_in { length tracked_in.now ≡ length graph.now.names }
    requires tracked_re { length tracked_re.now ≡ length graph.now.names }
    ensures alphabet { result ≡ those (length graph.now.names) (alphabet_within (rules_of graph.now) tracked_in.now tracked_re.now) }
    ensures room { length result ≡ length graph.now.names }
{
    let responses = graph.sources_into(Kind::Response, tracked_re);
    let cancels = graph.sources_into(Kind::Cancel, tracked_re);
    let includes = graph.sources_into(Kind::Include, tracked_in);
    let excludes = graph.sources_into(Kind::Exclude, tracked_in);
    let pending = responses.joined(&cancels);
    let included = includes.joined(&excludes);
    tracked_in.joined(&pending.joined(&included))
}
