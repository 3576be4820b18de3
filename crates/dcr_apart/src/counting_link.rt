ghost use Rattle.std.specs.Prelude.{◌≡◌};

use dcr_base::{Failed, Link, Sink, Source};

// What a site writes before it is asked anything: its hello.
const GREETING_BYTES: u64 = 78;

/// A link that counts the bytes that it takes, and is the same in all else.
#[derive(Drop)]
pub(crate) struct CountingLink<L> {
    link: L,
    written: u64,
}

impl<L: Link> CountingLink<L> {
    /// Over this link, by which nothing was written yet.
    pub(crate) fn new(link: L) -> CountingLink<L>
        ensures { result.link ≡ link }
    {
        CountingLink { link, written: 0 }
    }

    /// Whether more was written than a greeting.
    pub(crate) fn has_answered(&self) -> bool {
        self.written > GREETING_BYTES
    }
}

impl<L: Link> Source for CountingLink<L> {
    ghost gives = { λ link. L.gives link.link };

    ghost has_ended = { λ link. L.has_ended link.link };

    ghost sink_side = { λ link. L.sink_side link.link };

    fn read(&mut self, buf: &mut [u8]) -> Result<usize, Failed> {
        self.link.read(buf)
    }

    ghost ended_has_none = { λ link ended. L.ended_has_none link.link ended };
}

impl<L: Link> Sink for CountingLink<L> {
    ghost takes = { λ link. L.takes link.link };

    ghost source_side = { λ link. L.source_side link.link };

    fn write(&mut self, bytes: &[u8]) -> Result<usize, Failed> {
        let taken = self.link.write(bytes)?;
        self.written = self.written.saturating_add(taken as u64);
        Ok(taken)
    }
}

impl<L: Link> Link for CountingLink<L> {
    type Rest = L::Rest;

    fn finish(self) -> L::Rest {
        self.link.finish()
    }

    ghost sink_is = { λ link. L.sink_is link.link };

    ghost source_is = { λ link. L.source_is link.link };
}
