//! What the nodes of sites apart tell each other, and the bytes that it takes.
#![tactic(auto)]

mod answer;
mod answer_wire;
mod fields;
mod head;
mod laws;
mod message;
mod packet;
mod question;
mod question_wire;
mod set_bytes;
mod wire;

pub use answer::{Answer, Told};
pub use answer_wire::{read_answer, write_answer};
pub use laws::{bytes_spell_messages, bytes_spell_one_of_five};
pub use message::Message;
pub use packet::Packet;
pub use question::{Asked, Question};
pub use question_wire::{read_question, write_question};
pub use wire::{length_of_kind, read_message, write_message};
