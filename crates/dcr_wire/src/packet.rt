use crate::{Message, read_message, write_message};
use std::marker::Model;

/// A message as its fourteen bytes, in which it is sent and kept. Contracts see the message.
#[derive(Drop)]
pub struct Packet {
    bytes: [u8; 14],
}

impl Model for Packet {
    ghost use Rattle.dcr_wire.specs.declared.message.Message.{Message};

    ghost Value = { Message };

    ghost use Rattle.dcr_wire.specs.PacketModel.{message_of, IsPacket};

    ghost view = { message_of };

    ghost invariant = { IsPacket };
}

impl Packet {
    ghost use Rattle.std.specs.Prelude.{◌≡◌};

    /// The packet of a message.
    pub fn of(message: &Message) -> Packet
        ensures { result ≡ message.now }
    {
        Packet {
            bytes: write_message(message),
        }
    }

    /// The message, read from the bytes.
    pub fn message(&self) -> Message
        ensures { result ≡ self.now }
    {
        match read_message(&self.bytes) {
            Some(message) => message,
            None => unreachable!(),
        }
    }
}
