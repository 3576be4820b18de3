// The executions of the doctor and the nurse at sites that talk by messages.
use crate::same::same;
use crate::whole::{called, hospital};
use dcr_app::Status;
use dcr_base::{OpenGate, StdSink, StdSource};
use std::test::Fail;

// Their report, which is the same over each network.
static REPORT: &str = r#"dcr 1
graph {"events":[{"label":"pm","name":"pm"},{"label":"s","name":"s"},{"label":"gm","name":"gm"},{"label":"dt","name":"dt"}],"relations":[["condition","pm","s"],["condition","s","gm"],["condition","s","dt"],["response","pm","s"],["response","pm","gm"],["response","dt","s"],["exclude","dt","gm"],["include","s","gm"]]}
cover [{"events":["pm","s"],"site":"doctor"},{"events":["gm","dt"],"site":"nurse"}]
open executed - pending - included pm,s,gm,dt
0 0 0 exec doctor pm done
1 0 1 exec nurse gm condition s
2 0 2 exec doctor s done
3 0 3 exec nurse dt done
4 0 4 exec nurse gm excluded
5 0 5 exec doctor s done
6 0 6 exec nurse gm done
site doctor executed pm,s pending - included pm,s
site nurse executed s,gm,dt pending - included s,gm,dt
verdict accepting
end 7
"#;

pub(crate) fn apart_report() -> &'static str {
    REPORT
}

// The numbers of networks, and how many messages are sent over each until every site has heard of all: so many does
// `tools/apart.py` draw, which is written by the same rules in another language. No clause speaks of what is drawn.
static SENT: [(&str, u64); 5] = [
    ("0", 44),
    ("5", 42),
    ("6", 41),
    ("7", 36),
    ("4294967295", 48),
];

#[test]
fn as_many_messages_are_sent_as_the_number_draws(rt: HostRuntime) -> Result<(), Fail> {
    for (number, count) in &SENT {
        let words = ["nodes", *number];
        let mut input = StdSource::new(hospital().file.as_bytes());
        let mut output = StdSink::new(Vec::with_capacity(rt.alloc(), 4096)?);
        let ended = called(&rt, rt.alloc(), &words, &mut input, &mut output, OpenGate)?;
        same(&rt, &ended, &(Status::Done, Some(*count)), number);
    }
    Ok(())
}
