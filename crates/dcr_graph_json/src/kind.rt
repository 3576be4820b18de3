ghost use Rattle.std.specs.Prelude.{◌≡◌};
ghost use Rattle.dcr_graph.specs.KindText.{kind_text};
ghost use Rattle.dcr_graph_json.specs.Written.{kind_named};

use dcr_graph::Kind;

// The kind that is written with this word.
pub(crate) fn named(text: &str) -> Option<Kind>
    ensures { result ≡ kind_named text.now }
{
    match text {
        "condition" => Some(Kind::Condition),
        "response" => Some(Kind::Response),
        "milestone" => Some(Kind::Milestone),
        "include" => Some(Kind::Include),
        "exclude" => Some(Kind::Exclude),
        "cancel" => Some(Kind::Cancel),
        _ => None,
    }
}

/// The word that a kind of relation is written with, in a case file as in a part: the text of the definition.
pub fn kind_word(kind: Kind) -> &'static str
    ensures { result.now ≡ kind_text kind }
{
    match kind {
        Kind::Condition => "condition",
        Kind::Response => "response",
        Kind::Milestone => "milestone",
        Kind::Include => "include",
        Kind::Exclude => "exclude",
        Kind::Cancel => "cancel",
    }
}
