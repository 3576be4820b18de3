ghost use Rattle.std.specs.Prelude.{◌≡◌, true, Some, None, if◌then◌else◌};
ghost use Rattle.std.specs.List.{list_all};
ghost use Rattle.dcr_graph.specs.Names.{is_letter, is_name_byte};
ghost use Rattle.dcr_log.specs.Names.{is_trace_name};

use arrayvec::ArrayString;
use std::cmp::Ordering;
use std::marker::Model;
use std::str;

/// The name of a trace: 1 to 64 of ASCII letters, digits, `_`, `-` and `.`. It may begin with any of them, since logs
/// often number their cases. Contracts see its bytes, which lie in the value itself.
#[derive(Debug, Drop)]
pub struct TraceName {
    text: ArrayString<64>,
}

impl Model for TraceName {
    ghost use Rattle.std.specs.Prelude.{◌≡◌, List, ℕ, true};

    ghost Value = { List ℕ };

    ghost use Rattle.dcr_log.specs.Names.{is_trace_name};

    ghost view = { λ name. name.text.bytes };

    ghost invariant = { λ name. is_trace_name name.text.bytes ≡ true };
}

impl TraceName {
    /// The name that the bytes are. None exactly where they are no trace's name.
    pub(crate) fn read(bytes: &[u8]) -> Option<TraceName>
        ensures { result ≡ (if is_trace_name bytes.now then Some bytes.now else None) }
    {
        if !spells_trace_name(bytes) {
            return None;
        }
        let text = str::from_utf8(bytes).ok()?;
        let text = ArrayString::from(text).ok()?;
        Some(TraceName { text })
    }

    /// The same name again. Takes no memory.
    pub(crate) fn copy(&self) -> TraceName
        ensures { result ≡ self.now }
    {
        TraceName { text: self.text }
    }

    /// Its text.
    pub fn text(&self) -> &str
        ensures text { result.now ≡ self.now }
        ensures name { is_trace_name self.now ≡ true }
    {
        self.text.as_str()
    }
}

// Names are compared by their bytes.
impl PartialEq for TraceName {
    ghost use Rattle.std.specs.Prelude.{nat_eq};
    ghost use Rattle.std.specs.Cmp.{partial_equiv_from_equiv};
    ghost use Rattle.std.specs.Cmp.Lexicographic.{pointwise, nat_list_eq_equiv};

    ghost eq = { pointwise nat_eq };

    ghost laws = { partial_equiv_from_equiv nat_list_eq_equiv };

    fn eq(&self, other: &TraceName) -> bool {
        self.text() == other.text()
    }
}

impl Eq for TraceName {
    ghost use Rattle.std.specs.Cmp.Lexicographic.{nat_list_eq_equiv};

    ghost laws = { nat_list_eq_equiv };
}

impl PartialOrd for TraceName {
    ghost use Rattle.std.specs.Prelude.{Some};
    ghost use Rattle.std.specs.Ordering.{nat_cmp};
    ghost use Rattle.std.specs.Cmp.Lexicographic.{slice_cmp, texts_po};

    ghost partial_cmp = { λ a b. Some (slice_cmp nat_cmp a b) };

    ghost laws = { texts_po };

    fn partial_cmp(&self, other: &TraceName) -> Option<Ordering> {
        Some(self.cmp(other))
    }
}

impl Ord for TraceName {
    ghost use Rattle.std.specs.Prelude.{refl};
    ghost use Rattle.std.specs.Ordering.{nat_cmp};
    ghost use Rattle.std.specs.Cmp.Lexicographic.{slice_cmp, nat_list_cmp_total, texts_ties};

    ghost cmp = { slice_cmp nat_cmp };

    ghost total = { nat_list_cmp_total };

    ghost matches_partial_cmp = { λ a b. refl };

    ghost matches_eq = { texts_ties };

    fn cmp(&self, other: &TraceName) -> Ordering {
        self.text().cmp(other.text())
    }
}

// Whether the bytes are the name of a trace.
fn spells_trace_name(bytes: &[u8]) -> bool
    ensures { result ≡ is_trace_name bytes.now }
{
    1 <= bytes.len() && bytes.len() <= 64 && all_may_stand(bytes)
}

// Whether each byte may stand in a name.
fn all_may_stand(bytes: &[u8]) -> bool
    ensures { result ≡ list_all is_name_byte bytes.now }
{
    bytes.iter().all(|byte| may_stand(*byte))
}

// Whether the byte may stand in a name.
fn may_stand(byte: u8) -> bool
    ensures { result ≡ is_name_byte byte }
{
    is_ascii_letter(byte)
        || (48 <= byte && byte <= 57)
        || byte == b'_'
        || byte == b'-'
        || byte == b'.'
}

// Whether the byte is an ASCII letter.
fn is_ascii_letter(byte: u8) -> bool
    ensures { result ≡ is_letter byte }
{
    (65 <= byte && byte <= 90) || (97 <= byte && byte <= 122)
}
