ghost use Rattle.std.specs.Prelude.{◌≡◌, ◌<◌, ◌^◌, List, ℕ, MatchOption};
ghost use Rattle.dcr_wire.specs.Form.{bytes_of, HaveWidths};

/// The fields of a message in the order of their bytes. A vote's event is that of its cause, and an application's number
/// is its index. A field that the message doesn't use is 0.
#[derive(Clone, Copy)]
pub(crate) struct Fields {
    pub(crate) kind: u8,
    pub(crate) site: u16,
    pub(crate) number: u32,
    pub(crate) event: u16,
    pub(crate) count: u32,
    pub(crate) decision: u8,
}

/// The bytes of these fields, one behind the other, each with its higher bytes first.
pub(crate) fn write_fields(
    kind: u8,
    site: u16,
    number: u32,
    event: u16,
    count: u32,
    decision: u8,
) -> [u8; 14]
    ensures bytes { result ≡ bytes_of (record { kind = kind; site = site; number = number; event = event; count = count; decision = decision }) }
    ensures fits { HaveWidths (record { kind = kind; site = site; number = number; event = event; count = count; decision = decision }) }
{
    let [s1, s2] = site.to_be_bytes();
    let [n1, n2, n3, n4] = number.to_be_bytes();
    let [e1, e2] = event.to_be_bytes();
    let [c1, c2, c3, c4] = count.to_be_bytes();
    [
        kind, s1, s2, n1, n2, n3, n4, e1, e2, c1, c2, c3, c4, decision,
    ]
}

/// The fields that have these bytes. None exactly where there are no fourteen.
pub(crate) fn read_fields(bytes: &[u8]) -> Option<Fields>
    ensures { MatchOption result
        ((f : Fields) → bytes.now ≡ bytes_of f → ⊥)
        (λ f. HaveWidths f × (bytes.now ≡ bytes_of f)) }
{
    let [
        kind,
        s1,
        s2,
        n1,
        n2,
        n3,
        n4,
        e1,
        e2,
        c1,
        c2,
        c3,
        c4,
        decision,
    ] = bytes
    else {
        return None;
    };
    Some(Fields {
        kind: *kind,
        site: u16::from_be_bytes([*s1, *s2]),
        number: u32::from_be_bytes([*n1, *n2, *n3, *n4]),
        event: u16::from_be_bytes([*e1, *e2]),
        count: u32::from_be_bytes([*c1, *c2, *c3, *c4]),
        decision: *decision,
    })
}
