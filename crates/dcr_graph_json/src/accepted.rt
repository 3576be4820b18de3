ghost use Rattle.std.specs.Prelude.{◌≡◌, true, None, IsUtf8};
ghost use Rattle.std.specs.List.{All};
ghost use Rattle.dcr_graph.specs.Names.{is_label};
ghost use Rattle.dcr_graph.specs.Pairs.{first_clash};
ghost use Rattle.dcr_nest.specs.FlatRelation.{flat_relation};
ghost use Rattle.dcr_nest.specs.Nest.{labels_of, names_of};
ghost use Rattle.dcr_format.specs.Texts.{AreAllNames};
ghost use Rattle.dcr_graph_json.specs.Accepted.{IsAcceptedGraph};

use dcr_nest::{Nested, Node};

/// A nested graph without a clash is an accepted one, by its type: no refusal of a case file refuses it. Its
/// texts are looked at once, which says so.
pub fn see_graph(nested: &Nested)
    requires { first_clash (flat_relation nested.now) ≡ None }
    ensures { IsAcceptedGraph nested.now.version nested.now }
{
    see_texts(nested.nodes());
}

// The names of nodes are names and their labels are labels: each is looked at once, which says so.
fn see_texts(nodes: &[Node])
    ensures names { AreAllNames (names_of nodes.now) }
    ensures labels { All (λ label. is_label label ≡ true) (labels_of nodes.now) }
    ensures texts { All IsUtf8 (labels_of nodes.now) }
{
    for node in nodes {
        let _name = node.name.text();
        let _label = node.label.text();
    }
}
