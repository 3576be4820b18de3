ghost use Rattle.std.specs.Prelude.{◌≡◌, ◌<◌, ◌^◌, codes, false, length, map, not, position, is_some};
ghost use Rattle.std.specs.List.{list_all};
ghost use Rattle.std.specs.Option.{option_map_or};
ghost use Rattle.serde_json.specs.Find.{as_str};
ghost use Rattle.serde_json.specs.View.{view};
ghost use Rattle.dcr_format.specs.Facts.{each, refusal};
ghost use Rattle.dcr_format.specs.Members.{array_at};
ghost use Rattle.dcr_format.specs.declared.stop.CaseStop.TheVariants.{Shape};
ghost use Rattle.dcr_format.specs.declared.stop.Part.TheVariants as part;
ghost use Rattle.dcr_cover_json.specs.Shape.{is_site};

use dcr_format::{CaseStop, Part, member_array, member_text};
use serde_json::Value;

// Whether each of the values is a site, or the first that is none.
pub(crate) fn try_sites(values: &[Value]) -> Result<(), CaseStop>
    requires { length values.now < 2 ^ 32 }
    ensures { refusal result ≡ each is_site (Shape part.Site) (map view values.now) }
{
    if let Some(i) = first_other(values) {
        return Err(CaseStop::Shape {
            part: Part::Site,
            index: i as u32,
        });
    }
    Ok(())
}

// The first value that is no site.
fn first_other(values: &[Value]) -> Option<usize>
    ensures { result ≡ position (λ v. not (is_site (view v))) values.now }
{
    values.iter().position(|value| !is_site(value))
}

// Whether a value is a site.
fn is_site(value: &Value) -> bool
    ensures { result ≡ is_site (view value.now) }
{
    member_text(value, "site").is_some() && has_texts(value)
}

// Whether it has an array `events` of texts.
fn has_texts(value: &Value) -> bool
    ensures { result ≡ option_map_or (list_all (λ text. is_some (as_str text))) (array_at (codes "events") (view value.now)) false }
{
    match member_array(value, "events") {
        Some(values) => are_texts(values),
        None => false,
    }
}

// Whether each of the values is a text.
fn are_texts(values: &[Value]) -> bool
    ensures { result ≡ list_all (λ v. is_some (as_str (view v))) values.now }
{
    values.iter().all(|value| value.is_string())
}
