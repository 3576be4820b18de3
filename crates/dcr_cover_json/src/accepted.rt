ghost use Rattle.std.specs.Prelude.{◌≡◌, length};
ghost use Rattle.std.specs.List.{All};
ghost use Rattle.dcr_nest.specs.FlatRelation.{IsFlattening};
ghost use Rattle.dcr_format.specs.Texts.{AreAllNames};
ghost use Rattle.dcr_cover_json.specs.Accepted.{IsAcceptedCover};

use dcr_graph::{Graph, Name};
use dcr_nest::Nested;
use dcr_proj::Cover;

/// A cover of the atoms of a nested graph, with this flattening, is an accepted one, by its type.
pub fn see_cover(nested: &Nested, graph: &Graph, cover: &Cover)
    requires flat { IsFlattening nested.now graph.now }
    requires rooms { All (λ set. length set ≡ length graph.now.names) cover.now.owned }
    ensures { IsAcceptedCover nested.now cover.now }
{
    see_site_names(cover.site_names());
}

// Names are names.
fn see_site_names(names: &[Name])
    ensures { AreAllNames names.now }
{
    for name in names {
        let _text = name.text();
    }
}
