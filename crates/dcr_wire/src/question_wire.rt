ghost use Rattle.std.specs.Prelude.{◌≡◌, ◌<◌, ◌^◌, List, ℕ, MatchOption};
ghost use Rattle.dcr_wire.specs.declared.question.Question.{Question};
ghost use Rattle.dcr_wire.specs.declared.question.Asked.{Asked};
ghost use Rattle.dcr_wire.specs.QuestionForm.{asked_number, fields_of_question, question_bytes, HaveQuestionWidths, SpellQuestion, IsQuestionReading};

use crate::{Asked, Question};
use dcr_set::SiteId;

/// The fields of a question in the order of their bytes.
#[derive(Clone, Copy)]
pub(crate) struct QuestionFields {
    pub(crate) kind: u8,
    pub(crate) site: u16,
    pub(crate) number: u32,
    pub(crate) asked: u8,
    pub(crate) count: u32,
}

/// The bytes of a question: its kind, 4, the site in two bytes, the number in four, what is asked (0 the marks, 1 what may
/// be executed, 2 what is waited for), and the count in four, each with its higher bytes first.
pub fn write_question(question: &Question) -> [u8; 12]
    ensures { SpellQuestion result question.now }
{
    let asked = number_of(&question.asked);
    write_fields(4, question.site.0, question.number, asked, question.count)
}

/// The question whose bytes these are. None exactly where they are no question's. Takes no memory.
pub fn read_question(bytes: &[u8]) -> Option<Question>
    ensures { IsQuestionReading bytes.now result }
{
    let fields = read_fields(bytes)?;
    question_of(&fields)
}

// The number of what is asked.
fn number_of(asked: &Asked) -> u8
    ensures { result ≡ asked_number asked.now }
{
    match asked {
        Asked::Marks => 0,
        Asked::Can => 1,
        Asked::Waits => 2,
    }
}

// The bytes of these fields, one behind the other, each with its higher bytes first.
fn write_fields(kind: u8, site: u16, number: u32, asked: u8, count: u32) -> [u8; 12]
    ensures bytes { result ≡ question_bytes (record { kind = kind; site = site; number = number; asked = asked; count = count }) }
    ensures fits { HaveQuestionWidths (record { kind = kind; site = site; number = number; asked = asked; count = count }) }
{
    let [s1, s2] = site.to_be_bytes();
    let [n1, n2, n3, n4] = number.to_be_bytes();
    let [c1, c2, c3, c4] = count.to_be_bytes();
    [kind, s1, s2, n1, n2, n3, n4, asked, c1, c2, c3, c4]
}

// The fields that have these bytes. None exactly where there are no twelve.
fn read_fields(bytes: &[u8]) -> Option<QuestionFields>
    ensures { MatchOption result
        ((f : QuestionFields) → bytes.now ≡ question_bytes f → ⊥)
        (λ f. HaveQuestionWidths f × (bytes.now ≡ question_bytes f)) }
{
    let [kind, s1, s2, n1, n2, n3, n4, asked, c1, c2, c3, c4] = bytes else {
        return None;
    };
    Some(QuestionFields {
        kind: *kind,
        site: u16::from_be_bytes([*s1, *s2]),
        number: u32::from_be_bytes([*n1, *n2, *n3, *n4]),
        asked: *asked,
        count: u32::from_be_bytes([*c1, *c2, *c3, *c4]),
    })
}

// The question that has these fields. None exactly where none has.
fn question_of(fields: &QuestionFields) -> Option<Question>
    ensures { MatchOption result ((q : Question) → fields_of_question q ≡ fields.now → ⊥) (λ q. fields_of_question q ≡ fields.now) }
{
    if fields.kind != 4 {
        return None;
    }
    let asked = asked_of(fields.asked)?;
    Some(Question {
        number: fields.number,
        site: SiteId(fields.site),
        asked,
        count: fields.count,
    })
}

// What is asked that has this number. None exactly where nothing has.
fn asked_of(number: u8) -> Option<Asked>
    ensures { MatchOption result ((a : Asked) → asked_number a ≡ number → ⊥) (λ a. asked_number a ≡ number) }
{
    match number {
        0 => Some(Asked::Marks),
        1 => Some(Asked::Can),
        2 => Some(Asked::Waits),
        _ => None,
    }
}
