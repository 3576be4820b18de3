ghost use Rattle.std.specs.Prelude.{◌≡◌};
ghost use Rattle.dcr_wire.specs.Form.{IsReading};
ghost use Rattle.dcr_wire.specs.AnswerForm.{IsAnswerReading};
ghost use Rattle.dcr_talk.specs.Hearing.{Hears};

use dcr_base::Source;
use dcr_porter::fill;
use dcr_wire::{Answer, Message, read_answer, read_message};

/// The message in the next fourteen bytes. None exactly where the source ended or failed before all of them came, or where they
/// are no message's. Takes no memory.
pub fn hear_vote<S: Source>(source: &mut S) -> Option<Message>
    ensures heard { Hears 14 (S.has_ended source.new) (S.gives source.old) (S.gives source.new) IsReading result }
    ensures apart { S.sink_side source.new ≡ S.sink_side source.old }
{
    let mut bytes = [0; 14];
    match fill(source, &mut bytes) {
        Ok(()) => read_message(&bytes),
        Err(_) => None,
    }
}

/// The answer in the next four hundred bytes. None exactly where the source ended or failed before all of them came, or where
/// they are no answer's. Takes no memory.
pub fn hear_answer<S: Source>(source: &mut S) -> Option<Answer>
    ensures heard { Hears 400 (S.has_ended source.new) (S.gives source.old) (S.gives source.new) IsAnswerReading result }
    ensures apart { S.sink_side source.new ≡ S.sink_side source.old }
{
    let mut bytes = [0; 400];
    match fill(source, &mut bytes) {
        Ok(()) => read_answer(&bytes),
        Err(_) => None,
    }
}
