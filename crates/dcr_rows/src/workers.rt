// Several workers: row gate, the second half of row self-exclude, and a case over several sites.
use crate::same::{same, same_bytes};
use crate::whole::{answer, answer_at};
use dcr_app::Status;
use dcr_base::Gate;
use dcr_fakes::{Hold, HoldGate};
use std::alloc::Global;
use std::sync::{Mutex, Wait};
use std::test::Fail;
use std::thread::Threads;

// A case, and the reports that a run of it by two workers may give.
struct Case {
    file: &'static str,
    reports: [&'static str; 2],
}

// Row gate (i): two sites without a relation.
static APART: Case = Case {
    file: r#"{"graph":{"events":[{"name":"a"},{"name":"b"}]},"cover":[{"site":"A","events":["a"]},{"site":"B","events":["b"]}],"sessions":[["exec A a"],["exec B b"]]}"#,
    reports: [
        r#"dcr 1
graph {"events":[{"label":"a","name":"a"},{"label":"b","name":"b"}],"relations":[]}
cover [{"events":["a"],"site":"A"},{"events":["b"],"site":"B"}]
open executed - pending - included a,b
0 0 0 exec A a done
1 1 0 exec B b done
site A executed a pending - included a
site B executed b pending - included b
verdict accepting
end 2
"#,
        r#"dcr 1
graph {"events":[{"label":"a","name":"a"},{"label":"b","name":"b"}],"relations":[]}
cover [{"events":["a"],"site":"A"},{"events":["b"],"site":"B"}]
open executed - pending - included a,b
0 1 0 exec B b done
1 0 0 exec A a done
site A executed a pending - included a
site B executed b pending - included b
verdict accepting
end 2
"#,
    ],
};

// Row gate (ii): `a` is an event of B too, so that an execution of it holds B's lock.
static SHARED: Case = Case {
    file: r#"{"graph":{"events":[{"name":"a"},{"name":"b"},{"name":"c"}]},"cover":[{"site":"A","events":["a"]},{"site":"B","events":["a","b"]},{"site":"C","events":["c"]}],"sessions":[["exec A a"],["look C","exec B b"]]}"#,
    reports: [
        r#"dcr 1
graph {"events":[{"label":"a","name":"a"},{"label":"b","name":"b"},{"label":"c","name":"c"}],"relations":[]}
cover [{"events":["a"],"site":"A"},{"events":["a","b"],"site":"B"},{"events":["c"],"site":"C"}]
open executed - pending - included a,b,c
0 0 0 exec A a done
1 1 0 look C executed - pending - included c
2 1 1 exec B b done
site A executed a pending - included a
site B executed a,b pending - included a,b
site C executed - pending - included c
verdict accepting
end 3
"#,
        r#"dcr 1
graph {"events":[{"label":"a","name":"a"},{"label":"b","name":"b"},{"label":"c","name":"c"}],"relations":[]}
cover [{"events":["a"],"site":"A"},{"events":["a","b"],"site":"B"},{"events":["c"],"site":"C"}]
open executed - pending - included a,b,c
0 1 0 look C executed - pending - included c
1 0 0 exec A a done
2 1 1 exec B b done
site A executed a pending - included a
site B executed a,b pending - included a,b
site C executed - pending - included c
verdict accepting
end 3
"#,
    ],
};

// Row self-exclude: of two executions of an event that excludes itself one is done, whichever comes first.
static ONCE: Case = Case {
    file: r#"{"graph":{"events":[{"name":"a"}],"relations":[["exclude","a","a"]]},"cover":[{"site":"x","events":["a"]}],"sessions":[["exec x a"],["exec x a"]]}"#,
    reports: [
        r#"dcr 1
graph {"events":[{"label":"a","name":"a"}],"relations":[["exclude","a","a"]]}
cover [{"events":["a"],"site":"x"}]
open executed - pending - included a
0 0 0 exec x a done
1 1 0 exec x a excluded
site x executed a pending - included -
verdict accepting
end 2
"#,
        r#"dcr 1
graph {"events":[{"label":"a","name":"a"}],"relations":[["exclude","a","a"]]}
cover [{"events":["a"],"site":"x"}]
open executed - pending - included a
0 1 0 exec x a done
1 0 0 exec x a excluded
site x executed a pending - included -
verdict accepting
end 2
"#,
    ],
};

// Whether a run of a case by two workers, whose calls pass this gate, gives one of its reports.
fn gives_one<G: Gate + Drop + Sync, R: Threads + Wait + Sync>(
    rt: &R,
    alloc: Global,
    case: &Case,
    gate: G,
) -> Result<bool, Fail> {
    let words = ["run", "--workers", "2"];
    let (status, written) = answer_at(rt, alloc, &words, case.file.as_bytes(), gate)?;
    let [one, other] = case.reports;
    let is_one = written.as_slice() == one.as_bytes() || written.as_slice() == other.as_bytes();
    Ok(status == Status::Done && is_one)
}

// The first call of either session waits for that of the other one.
fn meeting(turns: u64) -> HoldGate {
    let first = Hold {
        at: (0, 0),
        until: (1, 0),
        turns,
    };
    let second = Hold {
        at: (1, 0),
        until: (0, 0),
        turns,
    };
    HoldGate::new(first, Some(second))
}

#[test]
fn a_call_waits_for_no_lock_of_a_site_that_has_no_part_in_it(rt: HostRuntime) -> Result<(), Fail> {
    let hold = Hold {
        at: (0, 0),
        until: (1, 0),
        turns: 10_000_000,
    };
    let gate = HoldGate::new(hold, None);
    assert!(rt; gives_one(&rt, rt.alloc(), &APART, &gate)?);
    assert!(rt; !gate.first_spent());
    Ok(())
}

#[test]
fn two_calls_without_a_site_in_common_are_at_the_gate_at_once(rt: HostRuntime) -> Result<(), Fail> {
    let gate = meeting(10_000_000);
    assert!(rt; gives_one(&rt, rt.alloc(), &APART, &gate)?);
    assert!(rt; !gate.first_spent() && !gate.second_spent());
    Ok(())
}

#[test]
fn a_call_waits_for_the_lock_of_a_site_that_has_a_part_in_it(rt: HostRuntime) -> Result<(), Fail> {
    let first = Hold {
        at: (1, 0),
        until: (0, 0),
        turns: 10_000_000,
    };
    let second = Hold {
        at: (0, 0),
        until: (1, 1),
        turns: 100_000,
    };
    let gate = HoldGate::new(first, Some(second));
    assert!(rt; gives_one(&rt, rt.alloc(), &SHARED, &gate)?);
    assert!(rt; !gate.first_spent());
    assert!(rt; gate.second_spent());
    Ok(())
}

// A gate with room for one call, as a lock round the whole of each call makes every gate.
#[derive(Drop)]
struct Narrow {
    room: Mutex<()>,
    gate: HoldGate,
}

impl Gate for Narrow {
    fn at<R: Wait>(&self, rt: &R, session: u32, seq: u32) {
        let held = self.room.lock(rt);
        self.gate.at(rt, session, seq);
        drop(held);
    }
}

#[test]
fn a_lock_round_the_whole_of_a_call_would_be_seen(rt: HostRuntime) -> Result<(), Fail> {
    let narrow = Narrow {
        room: Mutex::new(()),
        gate: meeting(10_000),
    };
    assert!(rt; gives_one(&rt, rt.alloc(), &APART, &narrow)?);
    // The call that came first waited in vain, and the other one found that it had come.
    assert!(rt; narrow.gate.first_spent() != narrow.gate.second_spent());
    Ok(())
}

#[test]
fn of_two_executions_that_exclude_each_other_one_is_done(rt: HostRuntime) -> Result<(), Fail> {
    for _ in 0..20 {
        assert!(rt; gives_one(&rt, rt.alloc(), &ONCE, &meeting(1000))?);
    }
    Ok(())
}

// Four parties and ten callers, of whom each asks at several sites.
static MANY: &str =
    r#"{"version":"2","graph":{"events":[{"name":"ask"},{"name":"offer"},{"name":"order"},{"name":"Work"},{"name":"make","parent":"Work"},{"name":"check","parent":"Work"},{"name":"pay","included":false},{"name":"stop"}],"relations":[["condition","ask","offer"],["response","ask","offer"],["milestone","offer","order"],["condition","order","Work"],["response","order","Work"],["include","order","pay"],["response","check","pay"],["exclude","stop","Work"],["include","ask","Work"],["cancel","stop","pay"]]},"cover":[{"site":"buyer","events":["ask","order","stop"]},{"site":"seller","events":["offer","make"]},{"site":"maker","events":["make","check"]},{"site":"bank","events":["pay"]}],"sessions":[["exec buyer ask","accepting","exec buyer order"],["exec seller offer","look seller"],["enabled maker","exec maker make","exec maker check"],["exec bank pay","look bank"],["exec buyer order","exec buyer stop"],["exec seller make","accepting"],["exec maker check","look maker"],["exec bank pay","enabled bank"],["exec buyer ask","exec buyer order","look buyer"],["exec seller offer","exec bank pay","accepting"]]}"#;

#[test]
fn a_report_of_several_workers_is_valid(rt: HostRuntime) -> Result<(), Fail> {
    for workers in ["2", "3", "4", "10", "64"] {
        let words = ["run", "--workers", workers];
        let (status, report) = answer(&rt, rt.alloc(), &words, MANY.as_bytes())?;
        same(&rt, &status, &Status::Done, "workers");
        let (status, line) = answer(&rt, rt.alloc(), &["replay"], &report)?;
        same(&rt, &status, &Status::Done, "workers");
        same_bytes(&rt, line.as_slice(), "valid 24\n".as_bytes(), "workers");
    }
    Ok(())
}
