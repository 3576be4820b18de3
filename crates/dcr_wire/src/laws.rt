ghost use Rattle.dcr_wire.specs.Laws.{HaveFourteen, SpellOneMessage, LengthIsTold, SpellOneSent};

/// A message has fourteen bytes, and no other message has the same.
pub fn bytes_spell_messages()
    ensures fourteen { HaveFourteen }
    ensures one { SpellOneMessage }
{}

/// The first byte of a message, a question or an answer tells how many there are, and no other message, question or answer
/// has the same.
pub fn bytes_spell_one_of_five()
    ensures length { LengthIsTold }
    ensures one { SpellOneSent }
{}
