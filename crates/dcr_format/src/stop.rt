ghost use Rattle.std.specs.Prelude.{◌≡◌};
ghost use Rattle.dcr_format.specs.declared.stop.CaseStop.TheVariants.{NoMemory as no_memory};

use dcr_graph::Name;
use dcr_set::NoMemory;
use std::alloc::{AllocError, AllocFailed};
use thiserror::Error;

/// A part of a case file, in the order in which their shapes are tried.
#[derive(Clone, Copy, Debug, PartialEq, Eq)]
pub enum Part {
    /// The whole value, an object, and its `version`.
    Top,
    /// The member `graph` and its arrays.
    Graph,
    /// One of the events.
    Event,
    /// One of the relations.
    Relation,
    /// The member `cover`, an array.
    Cover,
    /// One of the sites.
    Site,
    /// The member `sessions`, an array where it is there.
    Sessions,
    /// One of the sessions.
    Session,
}

/// What a limit counts, in the order in which the limits are tried.
#[derive(Clone, Copy, Debug, PartialEq, Eq)]
pub enum LimitKind {
    /// The events.
    Nodes,
    /// The events that are no event's parent.
    Atoms,
    /// The written relations.
    Relations,
    /// The bytes of a written label.
    Label,
    /// The sites, of which there is at least one.
    Sites,
    /// The sessions.
    Sessions,
    /// The calls of all sessions.
    Calls,
}

/// Why bytes are refused as a case, in the order in which this is tried.
#[derive(Debug, Drop, Error)]
pub enum CaseStop {
    /// There are more than 16,777,216 bytes.
    #[error("more than 16,777,216 bytes")]
    TooLong,
    /// The bytes are no JSON text.
    #[error("no JSON text")]
    NotJson,
    /// This part of the file is not of its shape; of several of its kind, the first.
    #[error("a part of another shape")]
    Shape { part: Part, index: u32 },
    /// There are so many of this kind, which is outside the limit.
    #[error("a limit is broken")]
    Limit { kind: LimitKind, count: u32 },
    /// The name of event i is no name, or an earlier event's.
    #[error("no name of an event, or one that stands twice")]
    EventName { i: u32 },
    /// The parent of event i is no earlier event's name.
    #[error("a parent that is no earlier event")]
    Parent { i: u32 },
    /// Event i is a parent and has a mark.
    #[error("a mark on a nest")]
    MarkOnNest { i: u32 },
    /// An end of relation i is no event's name.
    #[error("a relation of an event that there is not")]
    RelationEnd { i: u32 },
    /// The least pair of atoms, by their numbers, that is both included and excluded.
    #[error("a pair is both included and excluded")]
    Clash { a: Name, b: Name },
    /// Site i's name is not a name, or is an earlier site's.
    #[error("no name of a site, or one that stands twice")]
    SiteName { i: u32 },
    /// The j-th text that site i owns is no event's name.
    #[error("a site owns an event that there is not")]
    Owned { i: u32, j: u32 },
    /// The least atom that no site owns.
    #[error("an event that no site owns")]
    Uncovered { a: Name },
    /// Call j of session k is no call, or names a site or an event that there is not.
    #[error("no call")]
    CallLine { k: u32, j: u32 },
    /// Memory was wanted and could not be had. It may come in the place of any other answer but `TooLong`.
    #[error("out of memory")]
    NoMemory,
}

impl<T: Drop> From<AllocFailed<T>> for CaseStop {
    ghost from_gives = { λ _ stop. stop ≡ no_memory };

    fn from(_: AllocFailed<T>) -> CaseStop {
        CaseStop::NoMemory
    }
}

impl From<AllocError> for CaseStop {
    ghost from_gives = { λ _ stop. stop ≡ no_memory };

    fn from(_: AllocError) -> CaseStop {
        CaseStop::NoMemory
    }
}

impl From<NoMemory> for CaseStop {
    ghost from_gives = { λ _ stop. stop ≡ no_memory };

    fn from(_: NoMemory) -> CaseStop {
        CaseStop::NoMemory
    }
}
