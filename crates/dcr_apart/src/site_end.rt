ghost use Rattle.std.specs.Prelude.{◌≡◌, ◌≤◌, length, MatchResult};
ghost use Rattle.std.specs.Option.{option_map};
ghost use Rattle.dcr_app.specs.Outside.{CountsWhere, LeavesInput};
ghost use Rattle.dcr_apart.specs.SiteAnswer.{AnswersSite, AnswersText, GivesKey, GivesNoKey, limit_of, most_part};

use crate::say::{say, unread};
use crate::serve::serve;
use dcr_base::{Sink, Source, Status, read_all};
use dcr_greet::Key;
use dcr_part::{PartStop, read_part};
use dcr_porter::Porter;
use std::alloc::Global;
use std::sync::Wait;
use std::time::Clock;

// The most bytes of a part. No part of a case within the limits has as many: five relations between all of 1,024 atoms take 21
// million.
const MOST_PART: usize = 33_554_432;

/// How a site ended, and its porter.
#[derive(Drop)]
pub struct SiteEnd<P: Porter> {
    /// How it ended.
    pub status: Status,
    /// The porter that was handed in. It has taken back each link that it has brought.
    pub porter: P,
}

/// A site in a process of its own. It reads the text of a part (`dcr_part`) to its end, and then, again and again, has the porter
/// bring a link, answers over it as the part's site, begun at the opening, and hands back what stays of it, with the numbers from
/// 0 on (`dcr_answer::answer_link`). Where nobody is there, and behind a link over which nothing was answered, it waits: at first
/// not at all, then for 10 milliseconds, then for twice as long each time, up to a second; from none again behind a link over
/// which something was answered. `key` is the text of the site's key, where it has one. Nothing may stand behind the word of the
/// command: other words are answered by the line `usage`. An input of more than 33,554,432 bytes, one that is no part, and a key
/// that is none are refused by one line that tells why, in this order. Nothing else is written to the output.
///
/// `Done` comes where the porter is shut, `DoorFault` exactly where it has failed (`porter`), `ReadFault` exactly where a read
/// failed (`input`), and `WriteFault` exactly where a write failed (`output`), which then has a front of the line. With `NoMemory` nothing was written, and the porter
/// was asked nothing; once links are served it waits for memory before it asks for the next one. Over sockets a porter is never
/// shut, so that the process ends by a signal. The porter is asked for links from the first call on and isn't told to begin: one
/// that listens has begun before.
pub fn site<I: Source, O: Sink, P: Porter, R: Wait + Clock>(
    rt: &R,
    alloc: Global,
    words: &[String],
    input: &mut I,
    output: &mut O,
    key: Option<Vec<u8>>,
    porter: P,
) -> SiteEnd<P>
    ensures answers { AnswersSite P.tells words.now (option_map (λ text. text.items) key) (I.gives input.old).bytes (I.has_ended input.new)
        (O.takes output.old) (O.takes output.new) porter result.porter result.status }
    ensures input { LeavesInput (limit_of words.now) (I.gives input.old) (I.gives input.new) (I.has_ended input.new) result.status }
    ensures output { CountsWhere (result.status ≡ Status.WriteFault) (O.takes output.old).faults (O.takes output.new).faults }
    ensures porter { CountsWhere (result.status ≡ Status.DoorFault) (P.tells.faults porter) (P.tells.faults result.porter) }
{
    if !words.is_empty() {
        let status = say(output, b"usage\n", Status::Usage);
        return SiteEnd { status, porter };
    }
    match read_all(alloc, input, MOST_PART) {
        Ok(bytes) => site_of(rt, alloc, &bytes, output, key, porter),
        Err(stop) => SiteEnd {
            status: unread(stop, output),
            porter,
        },
    }
}

// The same of the bytes of an input.
fn site_of<O: Sink, P: Porter, R: Wait + Clock>(
    rt: &R,
    alloc: Global,
    bytes: &[u8],
    output: &mut O,
    key: Option<Vec<u8>>,
    porter: P,
) -> SiteEnd<P>
    ensures answers { AnswersText P.tells bytes.now (option_map (λ text. text.items) key)
        (O.takes output.old) (O.takes output.new) porter result.porter result.status }
    ensures porter { CountsWhere (result.status ≡ Status.DoorFault) (P.tells.faults porter) (P.tells.faults result.porter) }
{
    if let Err(stop) = read_part(alloc, bytes) {
        let status = match stop {
            PartStop::NotAPart => say(output, b"refused 19 not-part\n", Status::Refused),
            PartStop::NoMemory => Status::NoMemory,
        };
        return SiteEnd { status, porter };
    }
    match key_in(key) {
        Ok(key) => serve(rt, alloc, bytes, &key, porter),
        Err(NoKey) => {
            let status = say(output, b"refused 20 keys 1\n", Status::Refused);
            SiteEnd { status, porter }
        }
    }
}

// The text of a key is none.
struct NoKey;

// The key that the text is, where there is one.
fn key_in(text: Option<Vec<u8>>) -> Result<Option<Key>, NoKey>
    ensures { MatchResult result (λ key. GivesKey (option_map (λ it. it.items) text) key) (λ _. GivesNoKey (option_map (λ it. it.items) text)) }
{
    let Some(text) = text else {
        return Ok(None);
    };
    match Key::read(&text) {
        Some(key) => Ok(Some(key)),
        None => Err(NoKey),
    }
}
