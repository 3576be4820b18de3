use dcr_set::{EventId, NoMemory};
use std::alloc::Global;
use std::marker::Model;

/// The executions that a site takes part in, in order, and room for as many as the journal may have entries. All its
/// memory is taken when it is opened. Contracts see the events and the room.
#[derive(Drop)]
pub(crate) struct Stream {
    events: Vec<EventId>,
    room: u32,
}

impl Model for Stream {
    ghost use Rattle.dcr_node.specs.StreamValue.{StreamValue};

    ghost Value = { StreamValue };

    ghost use Rattle.dcr_node.specs.StreamModel.{stream_value_of, HasPlaces};

    ghost view = { stream_value_of };

    ghost invariant = { HasPlaces };
}

impl Stream {
    ghost use Rattle.std.specs.Prelude.{◌≡◌, ◌<◌, ◌≤◌, ◌∷◌, ◌++◌, [], length, IfOk, slice_get};

    /// An empty stream with room for so many events.
    pub(crate) fn open(alloc: Global, room: u32) -> Result<Stream, NoMemory>
        requires { room ≤ 200000 }
        ensures events { IfOk result (λ stream. stream.events ≡ []) }
        ensures room { IfOk result (λ stream. stream.room ≡ room) }
    {
        let events = Vec::with_capacity(alloc, room as usize)?;
        Ok(Stream { events, room })
    }

    /// Adds an event at the end. Takes no memory.
    pub(crate) fn push(&mut self, event: EventId)
        requires { length self.old.events < self.old.room }
        ensures events { self.new.events ≡ self.old.events ++ event ∷ [] }
        ensures room { self.new.room ≡ self.old.room }
    {
        self.events.push_reserved(event);
    }

    /// How many events there are.
    pub(crate) fn len(&self) -> u32
        ensures { result ≡ length self.now.events }
    {
        self.events.len() as u32
    }

    /// The event at a place, from 0. None exactly where the place is not below the length.
    pub(crate) fn get(&self, place: u32) -> Option<EventId>
        ensures { result ≡ slice_get self.now.events place }
    {
        self.events.get(place as usize).copied()
    }
}
