// Each call of a set beside the same question put to each number, from none to past the largest room.
ghost use Rattle.std.specs.Prelude.{◌≡◌, ◌≤◌, length};

use crate::same::same_text;
use dcr_set::{EventId, EventSet, NoMemory, SiteId};
use std::alloc::{AllocError, AllocFailed};
use std::hash::{DefaultHasher, Hash, Hasher};
use std::process::Abort;
use std::test::Fail;

// None, one, a word less one, a word, a word and one, four words, and the two largest.
const ROOMS: [u16; 8] = [0, 1, 63, 64, 65, 256, 1023, 1024];

// More numbers than there is room for.
const PAST: u16 = 1100;

// Which of the numbers below a room are members.
#[derive(Clone, Copy, Debug)]
enum Members {
    Nobody,
    Everybody,
    Zero,
    Last,
    WordStarts,
    WordEnds,
    WordEdges,
    Scattered,
    Alternating,
    Only(u16),
    AllBut(u16),
}

const MEMBERS: [Members; 8] = [
    Members::Nobody,
    Members::Everybody,
    Members::Zero,
    Members::Last,
    Members::WordStarts,
    Members::WordEnds,
    Members::WordEdges,
    Members::Scattered,
];

impl Members {
    fn has(self, number: u16, room: u16) -> bool {
        let is_member = match self {
            Members::Nobody => false,
            Members::Everybody => true,
            Members::Zero => number == 0,
            Members::Last => room.checked_sub(number) == Some(1),
            Members::WordStarts => number % 64 == 0,
            Members::WordEnds => number % 64 == 63,
            Members::WordEdges => matches!(number % 64, 0 | 1 | 62 | 63),
            Members::Scattered => number % 37 == 5,
            Members::Alternating => number % 2 == 0,
            Members::Only(other) => number == other,
            Members::AllBut(other) => number != other,
        };
        number < room && is_member
    }
}

// The set of this room with these members, the last put in first.
fn set_of(room: u16, members: Members) -> EventSet
    requires { room ≤ 1024 }
    ensures { length result ≡ room }
{
    let mut set = EventSet::new(room);
    for number in (0..room).rev() {
        if members.has(number, room) {
            set.insert(EventId(number));
        }
    }
    set
}

// Whether every call that reads one set tells these members.
fn is_just(set: &EventSet, members: Members) -> bool {
    let room = set.room();
    let mut events = set.iter();
    for number in 0..PAST {
        let is_member = members.has(number, room);
        if set.contains(EventId(number)) != is_member {
            return false;
        }
        if is_member && events.next() != Some(EventId(number)) {
            return false;
        }
    }
    let has_ended = events.next().is_none() && events.next().is_none();
    has_ended && set.first() == set.iter().next() && !set.contains(EventId(u16::MAX))
}

// A number goes into an empty set alone, and comes out of a full one alone. Each is done twice.
fn assert_moves_alone(rt: &impl Abort, room: u16, number: u16) {
    assert!(rt; number < room && room <= 1024);
    let mut alone = EventSet::new(room);
    let mut others = set_of(room, Members::Everybody);
    for _ in 0..2 {
        assert!(rt; number < alone.room());
        alone.insert(EventId(number));
        others.remove(EventId(number));
        assert!(rt;
            is_just(&alone, Members::Only(number)) && is_just(&others, Members::AllBut(number)),
            "room {room}, {number}"
        );
    }
    alone.remove(EventId(number));
    assert!(rt;
        is_just(&alone, Members::Nobody),
        "room {room}, not even {number}"
    );
}

#[test]
fn one_event_comes_and_goes_alone(rt: HostRuntime) {
    for room in ROOMS {
        assert!(rt; room <= 1024);
        let mut full = set_of(room, Members::Everybody);
        // What is not below the room comes out of a set with no change.
        for past in [room, 1024, 1025, 1088, u16::MAX] {
            full.remove(EventId(past));
        }
        assert!(rt;
            full.room() == room && is_just(&full, Members::Everybody),
            "room {room}"
        );
        for number in 0..room {
            if Members::WordEdges.has(number, room) {
                assert_moves_alone(&rt, room, number);
            }
        }
    }
}

// Two sets by each call that joins two, which leave both as they were.
fn assert_joins(rt: &impl Abort, room: u16, one: Members, two: Members) {
    assert!(rt; room <= 1024);
    let (first, second) = (set_of(room, one), set_of(room, two));
    let (mut either, mut both, mut left) = (first.copy(), first.copy(), first.copy());
    either.union_with(&second);
    both.keep_with(&second);
    left.minus_with(&second);
    let (joined, common) = (first.joined(&second), first.common(&second));
    let mut least = None;
    for number in (0..PAST).rev() {
        let e = EventId(number);
        let (a, b) = (one.has(number, room), two.has(number, room));
        if a && b {
            least = Some(e);
        }
        assert!(rt;
            either.contains(e) == (a || b)
                && joined.contains(e) == (a || b)
                && both.contains(e) == (a && b)
                && common.contains(e) == (a && b)
                && left.contains(e) == (a && !b),
            "room {room}, {one:?} and {two:?}, {number}"
        );
    }
    assert!(rt;
        first.first_common(&second) == least
            && first.meets(&second) == least.is_some()
            && is_just(&first, one)
            && is_just(&second, two),
        "room {room}, {one:?} and {two:?}"
    );
}

// The first of two sets that a third has too, and the first that it has not.
fn assert_firsts(rt: &impl Abort, room: u16, one: Members, two: Members, three: Members) {
    assert!(rt; room <= 1024);
    let (first, second, third) = (set_of(room, one), set_of(room, two), set_of(room, three));
    let (mut within, mut without) = (None, None);
    for number in (0..room).rev() {
        if one.has(number, room) && two.has(number, room) {
            if three.has(number, room) {
                within = Some(EventId(number));
            } else {
                without = Some(EventId(number));
            }
        }
    }
    assert!(rt;
        first.first_common_three(&second, &third) == within
            && first.first_common_without(&second, &third) == without,
        "room {room}, {one:?}, {two:?} and {three:?}"
    );
}

#[test]
fn sets_join_as_their_members_do(rt: HostRuntime) {
    for room in ROOMS {
        for one in MEMBERS {
            for two in MEMBERS {
                assert_joins(&rt, room, one, two);
                for three in MEMBERS {
                    assert_firsts(&rt, room, one, two, three);
                }
            }
        }
    }
}

// From each number on, the least member and the least number that is none: told from the last number down.
fn assert_runs(rt: &impl Abort, room: u16, members: Members) {
    assert!(rt; room <= 1024);
    let set = set_of(room, members);
    let mut first = None;
    let mut missing = room;
    for from in (0..room + 3).rev() {
        if members.has(from, room) {
            first = Some(EventId(from));
        } else {
            missing = from;
        }
        assert!(rt;
            set.first_from(from) == first && set.first_missing_from(from) == missing,
            "room {room}, {members:?}, {from}"
        );
    }
    assert!(rt; set.first_from(u16::MAX).is_none() && set.first_missing_from(u16::MAX) == u16::MAX);
}

#[test]
fn runs_begin_and_end_where_their_members_do(rt: HostRuntime) {
    for room in [0, 1, 63, 64, 65, 128, 1024] {
        for members in [
            Members::Nobody,
            Members::Everybody,
            Members::WordStarts,
            Members::WordEdges,
            Members::Alternating,
        ] {
            assert_runs(&rt, room, members);
        }
    }
}

fn hash_of(value: &impl Hash) -> u64 {
    let mut state = DefaultHasher::new();
    value.hash(&mut state);
    state.finish()
}

#[test]
fn numbers_and_the_error_have_their_derived_parts(rt: HostRuntime) -> Result<(), Fail> {
    let (event, site) = (EventId(2), SiteId(3));
    let (same_event, same_site) = (event, site);
    assert!(rt; event == same_event && event < EventId(3) && event.max(EventId(1)) == event);
    assert!(rt; site == same_site && site < SiteId(4) && site.max(SiteId(2)) == site);
    assert!(rt; hash_of(&event) == hash_of(&same_event) && hash_of(&event) != hash_of(&EventId(3)));
    assert!(rt; hash_of(&site) == hash_of(&same_site) && hash_of(&site) != hash_of(&SiteId(2)));
    let error = NoMemory::from(AllocError);
    assert!(rt; error == NoMemory::from(AllocFailed { value: event }));
    let printed = format!(in rt.alloc(); "{event:?}, {site:?}, {error:?}: {error}")?;
    let wanted = "EventId(2), SiteId(3), NoMemory: out of memory";
    same_text(&rt, printed.as_str(), wanted, "derived parts");
    Ok(())
}
