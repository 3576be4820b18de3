// Cases that are written as files.
ghost use Rattle.std.specs.Prelude.{◌≡◌, ◌≤◌, length, sum_by};

use crate::same::same_bytes;
use dcr_journal::CallList;
use dcr_json::{case_text, read_case};
use std::test::Fail;

// A file that has every member.
const WHOLE: &str =
    r#"{"note":[1.5,null,{"graph":1}],"version":"2","sessions":[["exec P a","look Q"],[],["enabled P","accepting","exec Q b"]],
    "cover":[{"site":"P","events":["n","x","a"]},{"at":[0],"events":["y","x"],"site":"Q"}],
    "graph":{"title":null,"relations":[["condition","n","x"],["response","b","m"],["milestone","a","a"],["include","x","y"],["exclude","y","x"],["cancel","m","b"],["condition","n","x"]],
        "events":[{"name":"n","label":"N\u00e9st"},{"name":"x","executed":true,"pending":false,"included":true,"mark":0},{"name":"m","parent":"n"},
            {"name":"a","parent":"m","label":"","pending":true},{"name":"y","included":false},{"executed":true,"parent":"n","name":"b"}]}}"#;

// WHOLE as it is written: keys ascend, each label stands there, a mark where it is not the usual one, and in the place of
// the texts of a site the names of the atoms that they mean.
const WRITTEN: &str =
    r#"{"cover":[{"events":["x","a","b"],"site":"P"},{"events":["x","y"],"site":"Q"}],"graph":{"events":[{"label":"Nést","name":"n"},{"executed":true,"label":"x","name":"x"},{"label":"m","name":"m","parent":"n"},{"label":"","name":"a","parent":"m","pending":true},{"included":false,"label":"y","name":"y"},{"executed":true,"label":"b","name":"b","parent":"n"}],"relations":[["condition","n","x"],["response","b","m"],["milestone","a","a"],["include","x","y"],["exclude","y","x"],["cancel","m","b"],["condition","n","x"]]},"sessions":[["exec P a","look Q"],[],["enabled P","accepting","exec Q b"]],"version":"2"}"#;

#[test]
fn a_case_is_written_as_a_file(rt: HostRuntime) -> Result<(), Fail> {
    let alloc = rt.alloc();
    let case = read_case(alloc, WHOLE.as_bytes())?;
    if count_calls(case.sessions.all()) > 20_000 {
        return Err(Fail::from("more calls than are written"));
    }
    let text = case_text(alloc, &case)?;
    same_bytes(&rt, text.as_slice(), WRITTEN.as_bytes(), "text.as_slice()");
    Ok(())
}

// How many calls the sessions have.
fn count_calls(sessions: &[CallList]) -> usize
    requires { sum_by (λ calls. length calls) sessions.now ≤ 200000 }
    ensures { result ≡ sum_by (λ calls. length calls) sessions.now }
{
    let mut count = 0;
    for calls in sessions {
        count += calls.len();
    }
    count
}
