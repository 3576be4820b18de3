// A set as 128 bytes: event k is bit k % 8 of byte k / 8, the lowest bit being bit 0.
ghost use Rattle.std.specs.Prelude.{◌≡◌, ◌⊎◌, ℕ, ◌+◌, ◌*◌, ◌<◌, ◌≤◌, ◌==◌, length, MatchOption, slice_index};
ghost use Rattle.std.specs.Int.{bit_at};
ghost use Rattle.dcr_set.specs.EventSet.{Set, has};
ghost use Rattle.dcr_wire.specs.SetForm.{bit_from, HasSet};

use dcr_set::{EventId, EventSet, MAX_ATOMS};

/// Writes a set to the 128 bytes from a place on. No other byte changes.
pub(crate) fn put_set(bytes: &mut [u8; 400], place: usize, events: &EventSet)
    requires { place + 128 ≤ 400 }
    ensures len { length bytes.new ≡ 400 }
    ensures events { HasSet bytes.new place events.now }
    ensures others { (j : ℕ) → (j < place) ⊎ (place + 128 ≤ j) → slice_index bytes.new j ≡ slice_index bytes.old j }
{
    let _room = events.room();
    for number in 0..128u16 {
        let byte = byte_of(events, number);
        bytes[place + usize::from(number)] = byte;
    }
}

/// The set with this room that the 128 bytes from a place on have. None exactly where there is none: the room is above
/// `MAX_ATOMS`, or the bytes have an event from the room on.
pub(crate) fn read_set(bytes: &[u8], place: usize, room: u16) -> Option<EventSet>
    requires { place + 128 ≤ length bytes.now }
    ensures { MatchOption result
        ((events : Set) → length events ≡ room → HasSet bytes.now place events → ⊥)
        (λ events. (length events ≡ room) × HasSet bytes.now place events) }
{
    if room > MAX_ATOMS {
        return None;
    }
    let mut events = EventSet::new(room);
    for number in 0..1024u16 {
        if has_bit(bytes, place, number) {
            if number >= room {
                return None;
            }
            events.insert(EventId(number));
        }
    }
    Some(events)
}

// The byte with this number, from 0, of the 128 that a set has.
fn byte_of(events: &EventSet, number: u16) -> u8
    requires { number < 128 }
    ensures { (i : ℕ) → i < 8 → (bit_at result i == 1) ≡ has events.now (8 * number + i) }
{
    let mut byte = 0u8;
    for i in 0..8u16 {
        if events.contains(EventId(8 * number + i)) {
            byte |= 1u8 << u32::from(i);
        }
    }
    byte
}

// Whether the 128 bytes from a place on have an event.
fn has_bit(bytes: &[u8], place: usize, number: u16) -> bool
    requires within { place + 128 ≤ length bytes.now }
    requires number { number < 1024 }
    ensures { result ≡ bit_from bytes.now place number }
{
    let byte = bytes[place + usize::from(number / 8)];
    (byte >> u32::from(number % 8)) & 1 == 1
}
