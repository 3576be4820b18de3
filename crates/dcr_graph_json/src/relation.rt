ghost use Rattle.std.specs.Prelude.{◌≡◌, option_map};
ghost use Rattle.serde_json.specs.View.{view};
ghost use Rattle.dcr_graph_json.specs.Shape.{is_of_version, is_relation};
ghost use Rattle.dcr_graph_json.specs.Seen.{relation_seen};
ghost use Rattle.dcr_graph_json.specs.Written.{relation_in};

use crate::kind;
use dcr_format::elements;
use dcr_graph::Kind;
use dcr_nest::Version;
use serde_json::Value;

// A relation as it is written, between two names.
#[derive(Clone, Copy)]
pub(crate) struct Relation<'v> {
    pub(crate) kind: Kind,
    pub(crate) source: &'v str,
    pub(crate) target: &'v str,
}

// The relation that a value is.
pub(crate) fn read(value: &Value) -> Option<Relation<'_>>
    ensures { option_map relation_seen result ≡ relation_in (view value.now) }
{
    let parts = elements(value)?;
    let [kind, source, target] = parts else {
        return None;
    };
    let text = kind.as_str()?;
    let kind = kind::named(text)?;
    let source = source.as_str()?;
    let target = target.as_str()?;
    Some(Relation {
        kind,
        source,
        target,
    })
}

// Whether a value is a relation of a graph of this version.
pub(crate) fn is_relation(version: Version, value: &Value) -> bool
    ensures { result ≡ is_relation version (view value.now) }
{
    match read(value) {
        Some(relation) => is_of_version(version, relation.kind),
        None => false,
    }
}

// Whether the kind may stand in a graph of this version.
fn is_of_version(version: Version, kind: Kind) -> bool
    ensures { result ≡ is_of_version version kind }
{
    match version {
        Version::V1 => kind != Kind::Cancel,
        Version::V2 => true,
    }
}
