ghost use Rattle.std.specs.Prelude.{◌≡◌, ◌<◌, ◌^◌, List, ℕ, MatchOption};
ghost use Rattle.dcr_wire.specs.AnswerForm.{head_bytes, HaveHeadWidths};

/// The fields of an answer before its sets, in the order of their bytes: what is told by its number, the event that is
/// waited for, and the room of each of the three sets.
#[derive(Clone, Copy)]
pub(crate) struct Head {
    pub(crate) kind: u8,
    pub(crate) site: u16,
    pub(crate) number: u32,
    pub(crate) told: u8,
    pub(crate) event: u16,
    pub(crate) first: u16,
    pub(crate) second: u16,
    pub(crate) third: u16,
}

/// The bytes of these fields, one behind the other, each with its higher bytes first.
pub(crate) fn write_head(
    site: u16,
    number: u32,
    told: u8,
    event: u16,
    first: u16,
    second: u16,
    third: u16,
) -> [u8; 16]
    ensures bytes { result ≡ head_bytes (record { kind = 5; site = site; number = number; told = told; event = event; first = first; second = second; third = third }) }
    ensures fits { HaveHeadWidths (record { kind = 5; site = site; number = number; told = told; event = event; first = first; second = second; third = third }) }
{
    let [s1, s2] = site.to_be_bytes();
    let [n1, n2, n3, n4] = number.to_be_bytes();
    let [e1, e2] = event.to_be_bytes();
    let [f1, f2] = first.to_be_bytes();
    let [g1, g2] = second.to_be_bytes();
    let [h1, h2] = third.to_be_bytes();
    [
        5, s1, s2, n1, n2, n3, n4, told, e1, e2, f1, f2, g1, g2, h1, h2,
    ]
}

/// The fields that have these bytes. None exactly where there are no sixteen.
pub(crate) fn read_head(bytes: &[u8]) -> Option<Head>
    ensures { MatchOption result
        ((f : Head) → bytes.now ≡ head_bytes f → ⊥)
        (λ f. HaveHeadWidths f × (bytes.now ≡ head_bytes f)) }
{
    let [
        kind,
        s1,
        s2,
        n1,
        n2,
        n3,
        n4,
        told,
        e1,
        e2,
        f1,
        f2,
        g1,
        g2,
        h1,
        h2,
    ] = bytes
    else {
        return None;
    };
    Some(Head {
        kind: *kind,
        site: u16::from_be_bytes([*s1, *s2]),
        number: u32::from_be_bytes([*n1, *n2, *n3, *n4]),
        told: *told,
        event: u16::from_be_bytes([*e1, *e2]),
        first: u16::from_be_bytes([*f1, *f2]),
        second: u16::from_be_bytes([*g1, *g2]),
        third: u16::from_be_bytes([*h1, *h2]),
    })
}
