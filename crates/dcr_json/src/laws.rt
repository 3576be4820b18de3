ghost use Rattle.dcr_json.specs.Opens.{OpeningIsWritten};
ghost use Rattle.dcr_json.specs.Spelling.{AcceptedIsSpelled};
ghost use Rattle.dcr_json.specs.Refusals.{CasesAreTheFormats, ClashesAreTheLeast, NeverRefuses, OneOfTheTwo, RefusalsAreTheFormats};
ghost use Rattle.dcr_graph.specs.Rules.{Rules};
ghost use Rattle.dcr_format.specs.declared.stop.CaseStop.TheVariants.{NoMemory};

use dcr_cover_json::covers_are_read_back;

/// Bytes are refused exactly where one of the facts of a case file fails so and all that are tried before it hold; want of
/// memory is never what they are refused for. They are a case exactly where all facts hold, and the case is what the
/// members of the file write. And one of the two holds. A clash that is told is the least.
pub fn when_each_refusal_comes()
    ensures refusals { RefusalsAreTheFormats }
    ensures cases { CasesAreTheFormats }
    ensures either { OneOfTheTwo }
    ensures clashes { (G : Rules) → ClashesAreTheLeast G }
{}

/// Want of memory is none of the refusals of bytes.
pub fn no_bytes_want_memory()
    ensures { NeverRefuses NoMemory }
{}

/// The case that bytes spell opens as its events are written: an atom is executed and pending exactly where the member of
/// that name of its event's object is true, and included unless it is false.
pub fn opening_is_written()
    ensures { OpeningIsWritten }
{}

/// A nested graph and a cover of it are accepted exactly where some case file spells both, and a nested graph
/// alone is accepted exactly where some case file spells it, with some cover. So what the definitions of accepted
/// graphs and covers ask for is what the reader of case files lets through, no more and no less.
pub fn accepted_is_spelled()
    ensures { AcceptedIsSpelled }
{
    covers_are_read_back();
}
