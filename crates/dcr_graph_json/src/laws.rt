ghost use Rattle.dcr_graph_json.specs.Laws.{AreReadBack};

/// The value of an accepted graph, with the marks of an opening or without, is a graph of the right shape, within the limits
/// and without a refusal, and it means that very graph and that opening. Its canonical text is one line that is read as the
/// value, and no two accepted graphs of one version have one text.
pub fn graphs_are_read_back()
    ensures { AreReadBack }
{}
