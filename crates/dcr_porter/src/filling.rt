ghost use Rattle.std.specs.Prelude.{◌≡◌, ◌<◌, ℕ, length, take, Err, IfErr, OnOk};
ghost use Rattle.std.specs.Io.KnownBytes.{Consumes};
ghost use Rattle.dcr_porter.specs.Filled.{CountsFilling, came};
ghost use Rattle.dcr_porter.specs.declared.filling.Unfilled.TheVariants.{Ended};

use dcr_base::Source;

/// Why a buffer was not read full. The bytes that came stand at its front.
#[derive(Clone, Copy, Debug, PartialEq, Eq)]
pub enum Unfilled {
    /// The source ended behind so many bytes.
    Ended { read: usize },
    /// A read failed behind so many bytes.
    Failed { read: usize },
}

/// Reads until the buffer is full, and not a byte more. Takes no memory. An error comes exactly where the source ended or a read
/// failed before; it tells how many bytes had come, and the source stands behind these. What is written beside it stays as it
/// was.
pub fn fill<S: Source>(source: &mut S, buf: &mut [u8]) -> Result<(), Unfilled>
    ensures len { length buf.new ≡ length buf.old }
    ensures all { OnOk result (Consumes (S.gives source.old).bytes (S.gives source.new).bytes buf.new) }
    ensures front { IfErr result (λ stop. Consumes (S.gives source.old).bytes (S.gives source.new).bytes (take (came stop) buf.new)) }
    ensures not_all { IfErr result (λ stop. came stop < length buf.new) }
    ensures ended { (n : ℕ) → result ≡ Err (Ended n) → S.has_ended source.new }
    ensures counts { CountsFilling result (S.gives source.old).faults (S.gives source.new).faults }
    ensures apart { S.sink_side source.new ≡ S.sink_side source.old }
{
    let mut filled = 0;
    while filled < buf.len() {
        match source.read(&mut buf[filled..]) {
            Ok(0) => return Err(Unfilled::Ended { read: filled }),
            Ok(n) => filled += n,
            Err(_) => return Err(Unfilled::Failed { read: filled }),
        }
    }
    Ok(())
}
