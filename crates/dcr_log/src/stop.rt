use dcr_set::NoMemory;
use thiserror::Error;

/// Why no log was read.
#[derive(Clone, Copy, Debug, PartialEq, Eq, Error)]
pub enum LogStop {
    /// The first bad record, counted from 0: the header, where it doesn't begin with `case` and `event` or there is no
    /// record; or a later one, where it has not as many fields as the header, or doesn't begin with the name of a trace
    /// and the text of an event.
    #[error("a record that is none of a log")]
    Bad { row: u32 },
    /// Memory was wanted and could not be had.
    #[error("out of memory")]
    NoMemory,
}

impl From<NoMemory> for LogStop {
    ghost use Rattle.std.specs.Prelude.{◌≡◌};
    ghost use Rattle.dcr_log.specs.declared.stop.LogStop.TheVariants.{NoMemory as no_memory};

    ghost from_gives = { λ _ stop. stop ≡ no_memory };

    fn from(_: NoMemory) -> LogStop {
        LogStop::NoMemory
    }
}
