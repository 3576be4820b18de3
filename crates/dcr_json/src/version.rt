ghost use Rattle.std.specs.Prelude.{◌≡◌};
ghost use Rattle.serde_json.specs.View.{view};
ghost use Rattle.dcr_json.specs.Written.{version_in, version_named, version_text};

use dcr_nest::Version;
use serde_json::Value;

// The version of a file, whose value is an object. None exactly where it is no object, or `version` is there and is none.
#[tactic(auto, unfolding(crate::specs::Written::version_in))]
pub(crate) fn read_version(value: &Value) -> Option<Version>
    ensures { result ≡ version_in (view value.now) }
{
    let _members = value.as_object()?;
    let Some(version) = value.get("version") else {
        return Some(Version::V1);
    };
    let text = version.as_str()?;
    named(text)
}

// The version with this name. The third is the second, with roles besides.
fn named(text: &str) -> Option<Version>
    ensures { result ≡ version_named text.now }
{
    match text {
        "1" => Some(Version::V1),
        "2" | "3" => Some(Version::V2),
        _ => None,
    }
}

// The text of a version.
pub(crate) fn version_text(version: Version) -> &'static str
    ensures { result.now ≡ version_text version }
{
    match version {
        Version::V1 => "1",
        Version::V2 => "2",
    }
}
