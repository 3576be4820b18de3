ghost use Rattle.std.specs.Prelude.{◌≡◌, IfOk, Ok};
ghost use Rattle.dcr_json.specs.Built.{case_of, IsCase};
ghost use Rattle.dcr_json.specs.Case.{case_in};
ghost use Rattle.dcr_load.specs.Load.{load};

use crate::{cover, graph, sessions};
use dcr_cover_json::see_cover;
use dcr_graph_json::see_graph;
use dcr_json::{Case, SessionList, case_text};
use dcr_set::NoMemory;
use std::alloc::Global;

/// The text of the load that a number spells: a case file, which the reader of case files reads as that load. `NoMemory`
/// where memory could not be had.
pub fn load_text(alloc: Global, number: u32) -> Result<Vec<u8>, NoMemory>
    ensures reads_as_load { IfOk result (λ text. case_in text.items ≡ Ok (load number)) }
{
    let case = load_case(alloc, number)?;
    case_text(alloc, &case)
}

/// The load that a number spells, as a case. `NoMemory` where memory could not be had.
pub fn load_case(alloc: Global, number: u32) -> Result<Case, NoMemory>
    ensures load { IfOk result (λ case. case_of case ≡ load number) }
    ensures fits { IfOk result IsCase }
{
    let nested = graph::nested(alloc, number)?;
    let graph = graph::flat(alloc, &nested)?;
    let cover = cover::cover(alloc, number)?;
    let sessions = sessions::sessions(alloc, number)?;
    see_graph(&nested);
    see_cover(&nested, &graph, &cover);
    Ok(Case {
        nested,
        graph,
        cover,
        opening: cover::opening(),
        sessions: SessionList::new(sessions),
    })
}
