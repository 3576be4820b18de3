// Ends without a link.
ghost use Rattle.std.specs.Prelude.{◌≡◌, ◌⊎◌};
ghost use Rattle.dcr_app.specs.Outside.{IsUnread, Wrote};

use dcr_base::{ReadStop, Sink, Status, write_all};

/// Writes a line that is due with this status.
pub(crate) fn say<O: Sink>(output: &mut O, line: &[u8], status: Status) -> Status
    ensures wrote { Wrote status line.now result (O.takes output.old) (O.takes output.new) }
    ensures told { (result ≡ status) ⊎ (result ≡ Status.WriteFault) }
{
    match write_all(output, line) {
        Ok(()) => status,
        Err(_) => Status::WriteFault,
    }
}

/// Tells why an input was not read to its end. Takes no memory.
pub(crate) fn unread<O: Sink>(stop: ReadStop, output: &mut O) -> Status
    ensures { IsUnread stop result (O.takes output.old) (O.takes output.new) }
{
    match stop {
        ReadStop::TooLong => say(output, b"refused 1 too-long\n", Status::Refused),
        ReadStop::ReadFault => Status::ReadFault,
        ReadStop::NoMemory => Status::NoMemory,
    }
}
