// Two cases on lines, of which the second one goes on from where the first one ended: a laboratory comes to the doctor and
// the nurse.
use crate::same::{same, same_bytes};
use crate::whole::{Whole, called};
use dcr_app::Status;
use dcr_base::{Gate, StdSink, StdSource};
use std::sync::Wait;
use std::sync::atomic::{AtomicU32, Ordering};
use std::test::Fail;

static STAGES: Whole = Whole {
    file: r#"{"graph":{"events":[{"name":"pm"},{"name":"s"},{"name":"gm"},{"name":"dt"}],"relations":[["condition","pm","s"],["condition","s","gm"],["condition","s","dt"],["response","pm","s"],["response","pm","gm"],["response","dt","s"],["exclude","dt","gm"],["include","s","gm"]]},"cover":[{"site":"doctor","events":["pm","s"]},{"site":"nurse","events":["gm","dt"]}],"sessions":[["exec doctor pm"]]}
{"graph":{"events":[{"name":"pm"},{"name":"s"},{"name":"gm"},{"name":"dt"},{"name":"lab"}],"relations":[["condition","pm","s"],["condition","s","gm"],["condition","s","dt"],["response","pm","s"],["response","pm","gm"],["response","dt","s"],["exclude","dt","gm"],["include","s","gm"],["condition","lab","gm"]]},"cover":[{"site":"doctor","events":["pm","s"]},{"site":"nurse","events":["gm","dt"]},{"site":"lab","events":["lab"]}],"sessions":[["exec doctor s","exec nurse gm","exec lab lab","exec nurse gm"]]}
"#,
    report: r#"dcr 1
graph {"events":[{"label":"pm","name":"pm"},{"label":"s","name":"s"},{"label":"gm","name":"gm"},{"label":"dt","name":"dt"}],"relations":[["condition","pm","s"],["condition","s","gm"],["condition","s","dt"],["response","pm","s"],["response","pm","gm"],["response","dt","s"],["exclude","dt","gm"],["include","s","gm"]]}
cover [{"events":["pm","s"],"site":"doctor"},{"events":["gm","dt"],"site":"nurse"}]
open executed - pending - included pm,s,gm,dt
0 0 0 exec doctor pm done
site doctor executed pm pending s included pm,s
site nurse executed - pending gm included s,gm,dt
verdict waits s
end 1
dcr 1
graph {"events":[{"label":"pm","name":"pm"},{"label":"s","name":"s"},{"label":"gm","name":"gm"},{"label":"dt","name":"dt"},{"label":"lab","name":"lab"}],"relations":[["condition","pm","s"],["condition","s","gm"],["condition","s","dt"],["response","pm","s"],["response","pm","gm"],["response","dt","s"],["exclude","dt","gm"],["include","s","gm"],["condition","lab","gm"]]}
cover [{"events":["pm","s"],"site":"doctor"},{"events":["gm","dt"],"site":"nurse"},{"events":["lab"],"site":"lab"}]
open executed pm pending s,gm included pm,s,gm,dt,lab
0 0 0 exec doctor s done
1 0 1 exec nurse gm condition lab
2 0 2 exec lab lab done
3 0 3 exec nurse gm done
site doctor executed pm,s pending - included pm,s
site nurse executed s,gm,lab pending - included s,gm,dt,lab
site lab executed lab pending - included lab
verdict accepting
end 4
"#,
};

// The cases, and their reports.
pub(crate) fn stages() -> &'static Whole {
    &STAGES
}

// A gate that counts the calls which pass it.
#[derive(Drop)]
struct CountingGate {
    passed: AtomicU32,
}

impl Gate for CountingGate {
    fn at<R: Wait>(&self, _: &R, _: u32, _: u32) {
        self.passed.fetch_add(1, Ordering::SeqCst);
    }
}

#[test]
fn every_call_of_every_stage_passes_the_gate(rt: HostRuntime) -> Result<(), Fail> {
    let gate = CountingGate {
        passed: AtomicU32::new(0),
    };
    let mut input = StdSource::new(STAGES.file.as_bytes());
    let mut output = StdSink::new(Vec::with_capacity(rt.alloc(), 4096)?);
    let (status, _) = called(&rt, rt.alloc(), &["adapt"], &mut input, &mut output, &gate)?;
    same(&rt, &status, &Status::Done, "adapt");
    same_bytes(&rt, &output.into_inner(), STAGES.report.as_bytes(), "adapt");
    same(&rt, &gate.passed.load(Ordering::SeqCst), &5, "calls");
    Ok(())
}
