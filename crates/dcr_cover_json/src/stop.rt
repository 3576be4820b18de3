ghost use Rattle.std.specs.Prelude.{◌≡◌, ◌≢◌, ℕ, ◌<◌, length};
ghost use Rattle.dcr_cover_json.specs.Check.{stop_of};
ghost use Rattle.dcr_cover_json.specs.declared.stop.CoverStop.TheVariants.{NoMemory as no_memory};

use dcr_format::CaseStop;
use dcr_graph::Graph;
use dcr_set::{EventId, NoMemory};
use std::alloc::{AllocFailed, Global};
use thiserror::Error;

/// Why a list of sites means no cover of a graph, in the order in which this is tried: site by site the
/// name and then the owned texts, and after all sites the atoms. The first failure is told.
#[derive(Clone, Copy, Debug, PartialEq, Eq, Error)]
pub enum CoverStop {
    /// The name of site i is no name, or is an earlier site's.
    #[error("the name of site {i} is no name, or is an earlier site's")]
    SiteName { i: u32 },
    /// The j-th owned text of site i is no node's name.
    #[error("owned text {j} of site {i} is no event's name")]
    Owned { i: u32, j: u32 },
    /// The least atom that no site owns.
    #[error("no site owns an atom")]
    Uncovered { a: EventId },
    /// Memory was wanted and could not be had. It may come in the place of any other answer.
    #[error("out of memory")]
    NoMemory,
}

impl From<NoMemory> for CoverStop {
    ghost from_gives = { λ _ stop. stop ≡ no_memory };

    fn from(_: NoMemory) -> CoverStop {
        CoverStop::NoMemory
    }
}

impl<T: Drop> From<AllocFailed<T>> for CoverStop {
    ghost from_gives = { λ _ stop. stop ≡ no_memory };

    fn from(_: AllocFailed<T>) -> CoverStop {
        CoverStop::NoMemory
    }
}

// The refusal as one of a case file, with the name of an atom that no site owns. Memory is taken for such a name alone.
pub(crate) fn refused(alloc: Global, graph: &Graph, stop: CoverStop) -> CaseStop
    requires { (a : ℕ) → stop ≡ CoverStop.Uncovered a → a < length graph.now.names }
    ensures stop { result ≢ CaseStop.NoMemory → result ≡ stop_of graph.now.names stop }
    ensures site_name { (i : ℕ) → stop ≡ CoverStop.SiteName i → result ≡ CaseStop.SiteName i }
    ensures owned { (i j : ℕ) → stop ≡ CoverStop.Owned i j → result ≡ CaseStop.Owned i j }
    ensures no_memory { stop ≡ CoverStop.NoMemory → result ≡ CaseStop.NoMemory }
{
    match stop {
        CoverStop::SiteName { i } => CaseStop::SiteName { i },
        CoverStop::Owned { i, j } => CaseStop::Owned { i, j },
        CoverStop::Uncovered { a } => match graph.name(a).copy(alloc) {
            Ok(a) => CaseStop::Uncovered { a },
            Err(_) => CaseStop::NoMemory,
        },
        CoverStop::NoMemory => CaseStop::NoMemory,
    }
}
