// The command `part`.
ghost use Rattle.std.specs.Prelude.{◌≡◌, ◌<◌, List, ℕ, length, Ok, IfOk, OnOk, ⊤};
ghost use Rattle.hex.specs.Hex.{IsBytes};
ghost use Rattle.dcr_json.specs.Built.{case_of, IsCase};
ghost use Rattle.dcr_part.specs.Whole.{IsWhole, part_text};
ghost use Rattle.dcr_roles.specs.Accepted.{case_accepted};
ghost use Rattle.dcr_app.specs.Answers.{AnswersPlain, RefusesBy};
ghost use Rattle.dcr_app.specs.Headline.{digest_of};
ghost use Rattle.dcr_app.specs.Parted.{no_site_line, whole_at};
ghost use Rattle.dcr_app.specs.declared.command.Reading.TheVariants.{Part};

use crate::answer::Answer;
use crate::lines::{Line, and, line};
use crate::say::{refuse, tell};
use dcr_base::{Sink, Status};
use dcr_json::Case;
use dcr_part::{PartHead, part_text};
use dcr_report::case_digest;
use dcr_roles::{read_accepted, when_each_refusal_comes};
use dcr_set::{NoMemory, SiteId};
use std::alloc::Global;

/// Writes the part that the site of this name has of a case.
pub(crate) fn part<O: Sink>(alloc: Global, site: &str, bytes: &[u8], output: &mut O) -> Answer
    ensures { AnswersPlain (Part site.now) bytes.now (O.takes output.old) (O.takes output.new) result }
{
    match read_accepted(alloc, bytes) {
        Ok(accepted) => part_of_case(alloc, site, &accepted.case, output),
        Err(stop) => refuse(alloc, output, &stop),
    }
}

// The same of a case that was read.
fn part_of_case<O: Sink>(alloc: Global, site: &str, case: &Case, output: &mut O) -> Answer
    requires { IsCase case.now }
    ensures { (bytes : List ℕ) → case_accepted bytes ≡ Ok (case_of case.now)
        → AnswersPlain (Part site.now) bytes (O.takes output.old) (O.takes output.new) result }
{
    // What the bytes of a case say.
    when_each_refusal_comes();
    let Some(number) = case.cover.find(site) else {
        return no_site(alloc, site, output);
    };
    let status = tell(output, text_of(alloc, case, number), Status::Done);
    Answer(status, None, None)
}

// Tells that the case has no site of this name.
fn no_site<O: Sink>(alloc: Global, site: &str, output: &mut O) -> Answer
    ensures { RefusesBy ⊤ (no_site_line site.now) (O.takes output.old) (O.takes output.new) result }
{
    let line = and(line(alloc, b"refused 18 no-site "), site.as_bytes());
    let status = tell(output, and(line, b"\n"), Status::Refused);
    Answer(status, None, None)
}

// The text of the part of a site.
fn text_of(alloc: Global, case: &Case, site: SiteId) -> Line
    requires case { IsCase case.now }
    requires site { site < length case.now.cover.names }
    ensures text { IfOk result (λ text. text.items ≡ part_text (whole_at (case_of case.now) site)) }
    ensures whole { OnOk result (IsWhole (whole_at (case_of case.now) site)) }
{
    let digest = digest_in(alloc, case)?;
    let name = case.cover.name(site).copy(alloc)?;
    let head = PartHead { digest, site, name };
    part_text(
        alloc,
        &head,
        &case.graph,
        case.cover.owned(site),
        &case.opening,
    )
}

// The digest that names a case.
fn digest_in(alloc: Global, case: &Case) -> Result<[u8; 32], NoMemory>
    requires { IsCase case.now }
    ensures digest { IfOk result (λ digest. digest ≡ digest_of (case_of case.now)) }
    ensures bytes { IfOk result IsBytes }
{
    case_digest(alloc, &case.nested, &case.graph, &case.cover, &case.opening)
}
