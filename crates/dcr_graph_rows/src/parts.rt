// Worked rows: the parts of the doctor and of the nurse of the hospital, as the second implementation tells them, and texts that
// are none.
use crate::build::{HOSPITAL, event_set, graph_of, opening};
use crate::same::{same, same_bytes};
use dcr_graph::Name;
use dcr_part::{PartHead, PartStop, part_text, read_part};
use dcr_set::{EventId, SiteId};
use std::alloc::Global;
use std::test::Fail;

// The digest of the case that has this graph, these two sites and its own sessions.
const DIGEST: [u8; 32] = [
    0x3e, 0x18, 0x53, 0x41, 0xc1, 0x70, 0xeb, 0x43, 0xd3, 0x92, 0x98, 0x17, 0x63, 0xb1, 0x10, 0x09,
    0xc8, 0x71, 0x46, 0x7a, 0x83, 0x02, 0x19, 0x96, 0xff, 0x2d, 0xb6, 0x47, 0x6e, 0x6c, 0xf1, 0xc5,
];

const DOCTOR: &str =
    "{\"alphabet\":[[0,\"pm\",true],[1,\"s\",true],[3,\"dt\",false]],\"atoms\":4,\"digest\":\"3e185341c170eb43d392981763b11009c871467a83021996ff2db6476e6cf1c5\",\"format\":\"dcr part 1\",\"number\":0,\"opening\":{\"executed\":[],\"included\":[0,1],\"pending\":[]},\"relations\":{\"cancel\":[],\"condition\":[[0,[1]]],\"exclude\":[],\"include\":[],\"milestone\":[],\"response\":[[0,[1]],[3,[1]]]},\"site\":\"doctor\"}\n";

const NURSE: &str =
    "{\"alphabet\":[[0,\"pm\",false],[1,\"s\",false],[2,\"gm\",true],[3,\"dt\",true]],\"atoms\":4,\"digest\":\"3e185341c170eb43d392981763b11009c871467a83021996ff2db6476e6cf1c5\",\"format\":\"dcr part 1\",\"number\":1,\"opening\":{\"executed\":[],\"included\":[1,2,3],\"pending\":[]},\"relations\":{\"cancel\":[],\"condition\":[[1,[2,3]]],\"exclude\":[[3,[2]]],\"include\":[[1,[2]]],\"milestone\":[],\"response\":[[0,[2]]]},\"site\":\"nurse\"}\n";

// A site's number and name, what it owns, and its part.
type Row = (u16, &'static str, &'static [u16], &'static str);

const ROWS: [Row; 2] = [(0, "doctor", &[0, 1], DOCTOR), (1, "nurse", &[2, 3], NURSE)];

fn head(alloc: Global, site: u16, name: &str) -> Result<PartHead, Fail> {
    Ok(PartHead {
        digest: DIGEST,
        site: SiteId(site),
        name: Name::read(alloc, name)?,
    })
}

#[test]
fn a_part_is_told(rt: HostRuntime) -> Result<(), Fail> {
    let alloc = rt.alloc();
    let graph = graph_of(alloc, &HOSPITAL)?;
    for (site, name, own, text) in &ROWS {
        let head = head(alloc, *site, name)?;
        let told = part_text(alloc, &head, &graph, &event_set(own), &opening())?;
        same_bytes(&rt, &told, text.as_bytes(), name);
    }
    Ok(())
}

#[test]
fn a_part_is_read(rt: HostRuntime) -> Result<(), Fail> {
    let part = read_part(rt.alloc(), DOCTOR.as_bytes())?;
    same_bytes(&rt, &part.head.digest, &DIGEST, "digest");
    same(&rt, &part.head.site.0, &0, "number");
    same(&rt, &part.names.len(), &4, "names");
    same(&rt, &part.site.hears(EventId(2)), &false, "gm");
    same(&rt, &part.site.hears(EventId(3)), &true, "dt");
    Ok(())
}

// A part without its line end, one with a space, and one whose included marks are told in another order.
#[test]
fn another_text_is_no_part(rt: HostRuntime) {
    let texts = [
        "",
        "\n",
        "{\"alphabet\":[[0,\"pm\",true],[1,\"s\",true],[3,\"dt\",false]],\"atoms\":4,\"digest\":\"3e185341c170eb43d392981763b11009c871467a83021996ff2db6476e6cf1c5\",\"format\":\"dcr part 1\",\"number\":0,\"opening\":{\"executed\":[],\"included\":[0,1],\"pending\":[]},\"relations\":{\"cancel\":[],\"condition\":[[0,[1]]],\"exclude\":[],\"include\":[],\"milestone\":[],\"response\":[[0,[1]],[3,[1]]]},\"site\":\"doctor\"}",
        "{\"alphabet\":[[0,\"pm\",true],[1,\"s\",true],[3,\"dt\",false]],\"atoms\": 4,\"digest\":\"3e185341c170eb43d392981763b11009c871467a83021996ff2db6476e6cf1c5\",\"format\":\"dcr part 1\",\"number\":0,\"opening\":{\"executed\":[],\"included\":[0,1],\"pending\":[]},\"relations\":{\"cancel\":[],\"condition\":[[0,[1]]],\"exclude\":[],\"include\":[],\"milestone\":[],\"response\":[[0,[1]],[3,[1]]]},\"site\":\"doctor\"}\n",
        "{\"alphabet\":[[0,\"pm\",true],[1,\"s\",true],[3,\"dt\",false]],\"atoms\":4,\"digest\":\"3e185341c170eb43d392981763b11009c871467a83021996ff2db6476e6cf1c5\",\"format\":\"dcr part 1\",\"number\":0,\"opening\":{\"executed\":[],\"included\":[1,0],\"pending\":[]},\"relations\":{\"cancel\":[],\"condition\":[[0,[1]]],\"exclude\":[],\"include\":[],\"milestone\":[],\"response\":[[0,[1]],[3,[1]]]},\"site\":\"doctor\"}\n",
    ];
    for text in &texts {
        let read = read_part(rt.alloc(), text.as_bytes());
        same(&rt, &read.err(), &Some(PartStop::NotAPart), text);
    }
}
