// The policy of a case that was read before, read by itself.
use crate::same::same;
use dcr_cluster_rows::{GUARDED, HOSPITAL};
use dcr_json::read_case;
use dcr_roles::{PolicyPart, PolicyStop, read_policy};
use std::alloc::Global;
use std::process::Abort;
use std::test::Fail;

// One event that asks for a role that no user has: of its two sessions the second is nobody's.
const NOBODY: &str =
    r#"{"version":"3","graph":{"events":[{"name":"a","roles":["r"]}]},"cover":[{"site":"here","events":["a"]}],"users":[{"user":"u","roles":["s"]}],"by":["u","v"],"sessions":[["exec here a"]]}"#;

// The same with one session, which makes a call that it may not make.
const WANTED: &str =
    r#"{"version":"3","graph":{"events":[{"name":"a","roles":["r"]}]},"cover":[{"site":"here","events":["a"]}],"users":[{"user":"u","roles":["s"]}],"by":["u"],"sessions":[["accepting","exec here a"]]}"#;

// What becomes of the policy of a text: it is read, refused at a part, or for a call of a session that is denied.
#[derive(Clone, Copy, Debug, PartialEq)]
enum Became {
    Read,
    Refused(PolicyPart, u32),
    Denied(u32, u32),
    NoMemory,
}

// That it becomes this, where the case was read before.
fn expect(rt: &impl Abort, alloc: Global, text: &str, want: Became) -> Result<(), Fail> {
    let Ok(case) = read_case(alloc, text.as_bytes()) else {
        return Err(Fail::new("the case is read"));
    };
    let became = match read_policy(alloc, text.as_bytes(), &case) {
        Ok(_) => Became::Read,
        Err(PolicyStop::Policy { part, index }) => Became::Refused(part, index),
        Err(PolicyStop::Denied { k, j, role: _ }) => Became::Denied(k, j),
        Err(PolicyStop::NoMemory) => Became::NoMemory,
    };
    same(rt, &became, &want, text);
    Ok(())
}

#[test]
fn a_policy_is_read_of_a_case_that_was_read(rt: HostRuntime) -> Result<(), Fail> {
    let alloc = rt.alloc();
    expect(&rt, alloc, GUARDED, Became::Read)?;
    expect(&rt, alloc, HOSPITAL, Became::Read)?;
    expect(&rt, alloc, NOBODY, Became::Refused(PolicyPart::By, 1))?;
    expect(&rt, alloc, WANTED, Became::Denied(0, 1))
}
