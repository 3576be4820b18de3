ghost use Rattle.dcr_replay.specs.OneVerdict.{VerdictIsOne};
ghost use Rattle.dcr_replay.specs.Verdicts.{EachHasAVerdict};

use crate::canonical::canonical_texts;
use dcr_cover_json::covers_are_read_back;
use dcr_graph_json::graphs_are_read_back;

/// A text has one verdict. So a text with a wrong line is the report of no legal history, and the report of a legal
/// history is found valid.
pub fn a_text_has_one_verdict()
    ensures { VerdictIsOne }
{
    canonical_texts();
}

/// Each text has a verdict as a report: it is valid, or one of its lines is the first wrong one. It has no other, so what
/// is said of a text by its verdict is said of each text.
pub fn each_text_has_a_verdict()
    ensures { EachHasAVerdict }
{
    graphs_are_read_back();
    covers_are_read_back();
}
