ghost use Rattle.dcr_replay.specs.Canonical.{HaveNoLineEnd, MeanOne};

use dcr_cover_json::covers_are_read_back;
use dcr_graph_json::graphs_are_read_back;

// The canonical texts of graphs and of covers have no line end, and each means one graph or one cover.
pub(crate) fn canonical_texts()
    ensures one_line { HaveNoLineEnd }
    ensures one { MeanOne }
{
    graphs_are_read_back();
    covers_are_read_back();
}
