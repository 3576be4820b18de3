ghost use Rattle.std.specs.Prelude.{◌≡◌, ◌<◌, map, option_map, IfSome};
ghost use Rattle.serde_json.specs.Find.{get};
ghost use Rattle.serde_json.specs.View.{items_view, view};
ghost use Rattle.dcr_format.specs.Size.{items_size, size};
ghost use Rattle.dcr_format.specs.Members.{array_at, elements as elements_of, elements_or_none, mark_at, may_have_mark, may_have_text, text_at};

use serde_json::Value;

/// The member of an object with this name. A member that is null is there. None exactly where there is none.
pub fn member<'v>(value: &'v Value, name: &str) -> Option<&'v Value>
    ensures value { option_map (λ v. view v.now) result ≡ get name.now (view value.now) }
    ensures smaller { IfSome result (λ v. size (view v.now) < size (view value.now)) }
{
    value.get(name)
}

/// The elements of an array. None exactly where the value is none.
#[tactic(auto, using(crate::proofs::MemberLemmas::elements_seen, crate::proofs::MemberLemmas::elements_small))]
pub fn elements(value: &Value) -> Option<&[Value]>
    ensures value { option_map (λ vs. map view vs.now) result ≡ elements_of (view value.now) }
    ensures smaller { IfSome result (λ vs. items_size (items_view vs.now) < size (view value.now)) }
{
    match value.as_array() {
        Some(values) => Some(values.as_slice()),
        None => None,
    }
}

/// The elements of the member with this name. None exactly where there is no such member, or it is no array.
pub fn member_array<'v>(value: &'v Value, name: &str) -> Option<&'v [Value]>
    ensures value { option_map (λ vs. map view vs.now) result ≡ array_at name.now (view value.now) }
    ensures smaller { IfSome result (λ vs. items_size (items_view vs.now) < size (view value.now)) }
{
    let array = member(value, name)?;
    elements(array)
}

/// The same, and none where there is no such member. None exactly where it is there and is no array.
pub fn array_or_none<'v>(value: &'v Value, name: &str) -> Option<&'v [Value]>
    ensures value { option_map (λ vs. map view vs.now) result ≡ elements_or_none (get name.now (view value.now)) }
    ensures smaller { IfSome result (λ vs. items_size (items_view vs.now) < size (view value.now)) }
{
    let Some(array) = member(value, name) else {
        return Some(&[]);
    };
    elements(array)
}

/// The text of the member with this name. None exactly where there is no such member, or it is no text.
pub fn member_text<'v>(value: &'v Value, name: &str) -> Option<&'v str>
    ensures { option_map (λ t. t.now) result ≡ text_at name.now (view value.now) }
{
    let member = value.get(name)?;
    member.as_str()
}

/// The truth value of the member with this name. None exactly where there is no such member, or it is none.
pub fn member_mark(value: &Value, name: &str) -> Option<bool>
    ensures { result ≡ mark_at name.now (view value.now) }
{
    let member = value.get(name)?;
    member.as_bool()
}

/// Whether the member with this name is a text, where it is there.
pub fn may_have_text(value: &Value, name: &str) -> bool
    ensures { result ≡ may_have_text name.now (view value.now) }
{
    match value.get(name) {
        Some(member) => member.is_string(),
        None => true,
    }
}

/// Whether the member with this name is a truth value, where it is there.
pub fn may_have_mark(value: &Value, name: &str) -> bool
    ensures { result ≡ may_have_mark name.now (view value.now) }
{
    match value.get(name) {
        Some(member) => member.is_boolean(),
        None => true,
    }
}
