ghost use Rattle.std.specs.Prelude.{◌≡◌, ◌≢◌, ◌<◌, [], ◌∷◌, ◌++◌, true, false, None, vec_len, slice_set, slice_index_or, IfOk, OnOk};
ghost use Rattle.dcr_graph.specs.Names.{number_of};
ghost use Rattle.dcr_log.specs.Gathered.{names_of, longer, with_event, IsGathering};
ghost use Rattle.dcr_log.specs.Names.{is_trace_name};
ghost use Rattle.dcr_log.specs.declared.trace.Trace.{Trace};

use crate::places::Places;
use crate::{TextList, Trace, TraceName};
use dcr_set::NoMemory;
use std::alloc::Global;

// With so many slots the first places are found. Where half as many traces have come as there are slots, these grow by a
// factor of four.
const FIRST_SLOTS: usize = 1024;

const GROWTH: usize = 4;

/// The traces of the records so far, in order of first appearance.
#[derive(Drop)]
pub(crate) struct Gathering {
    pub(crate) traces: Vec<Trace>,
    // Where the trace stands that got the last event, which mostly gets the next one too.
    last: usize,
    places: Places,
}

impl Gathering {
    /// No trace yet.
    pub(crate) fn new(alloc: Global) -> Result<Gathering, NoMemory>
        ensures gathers { IfOk result (λ gathering. IsGathering gathering) }
        ensures none { IfOk result (λ gathering. gathering.traces.items ≡ []) }
    {
        let places = Places::new(alloc, FIRST_SLOTS)?;
        Ok(Gathering {
            traces: Vec::new(alloc),
            last: 0,
            places,
        })
    }

    /// Adds an event at the end of the trace with this name, which begins where there is none yet. False where the bytes are
    /// no trace's name; nothing changes then.
    pub(crate) fn add(&mut self, alloc: Global, name: &[u8], event: &str) -> Result<bool, NoMemory>
        requires { IsGathering self.old }
        ensures named { IfOk result (λ named. named ≡ is_trace_name name.now) }
        ensures gathers { IfOk result (λ named. named ≡ true → IsGathering self.new) }
        ensures added { IfOk result (λ named. named ≡ true → self.new.traces.items
            ≡ with_event self.old.traces.items name.now event.now) }
    {
        if self.is_named(self.last, name) {
            let last = self.last;
            self.append(last, event)?;
            return Ok(true);
        }
        let Some(name) = TraceName::read(name) else {
            return Ok(false);
        };
        match self.find(&name) {
            Some(place) => self.append(place, event)?,
            None => self.begin(alloc, name, event)?,
        }
        Ok(true)
    }

    // Whether a trace stands at this place and has this name.
    fn is_named(&self, place: usize, name: &[u8]) -> bool
        ensures within { result ≡ true → place < vec_len self.now.traces }
        ensures named { result ≡ true → slice_index_or (names_of self.now.traces.items) place [] ≡ name.now }
        ensures spelled { result ≡ true → is_trace_name name.now ≡ true }
        ensures other { result ≡ false → place < vec_len self.now.traces
            → slice_index_or (names_of self.now.traces.items) place [] ≢ name.now }
    {
        match self.traces.get(place) {
            Some(trace) => trace.name.text().as_bytes() == name,
            None => false,
        }
    }

    // Where the trace of this name stands.
    fn find(&self, name: &TraceName) -> Option<usize>
        requires { IsGathering self.now }
        ensures { result ≡ number_of (names_of self.now.traces.items) name.now }
    {
        let held = self.places.held(name);
        if held == 0 {
            return None;
        }
        if self.is_named(held - 1, name.text().as_bytes()) {
            return Some(held - 1);
        }
        self.places.other(name)
    }

    // Adds an event to the trace at a place.
    fn append(&mut self, place: usize, event: &str) -> Result<(), NoMemory>
        requires gathers { IsGathering self.old }
        requires within { place < vec_len self.old.traces }
        ensures gathers { OnOk result (IsGathering self.new) }
        ensures added { (d : Trace) → OnOk result (self.new.traces.items
            ≡ slice_set self.old.traces.items place (longer (slice_index_or self.old.traces.items place d) event.now)) }
    {
        let trace = &mut self.traces[place];
        trace.events.push(event)?;
        self.last = place;
        Ok(())
    }

    // Adds a trace of this name, with one event.
    fn begin(&mut self, alloc: Global, name: TraceName, event: &str) -> Result<(), NoMemory>
        requires gathers { IsGathering self.old }
        requires other { number_of (names_of self.old.traces.items) name ≡ None }
        ensures gathers { OnOk result (IsGathering self.new) }
        ensures added { OnOk result (self.new.traces.items
            ≡ self.old.traces.items ++ record { name = name; events = event.now ∷ [] } ∷ []) }
    {
        let place = self.traces.len();
        let mut events = TextList::new(alloc);
        events.push(event)?;
        self.make_room(alloc)?;
        self.places.note(&name, place)?;
        self.traces.push(Trace { name, events })?;
        self.last = place;
        Ok(())
    }

    // Notes the names anew, with more slots, where there are few. It decides what a look-up costs, and no place.
    fn make_room(&mut self, alloc: Global) -> Result<(), NoMemory>
        requires { IsGathering self.old }
        ensures gathers { OnOk result (IsGathering self.new) }
        ensures traces { self.new.traces ≡ self.old.traces }
    {
        let slots = self.places.slots();
        if self.traces.len() < slots / 2 {
            return Ok(());
        }
        let mut places = Places::new(alloc, slots.saturating_mul(GROWTH))?;
        for place in 0..self.traces.len() {
            places.note(&self.traces[place].name, place)?;
        }
        self.places = places;
        Ok(())
    }
}
