// Why there is no name, label, graph, cover, report or log, in words.
use crate::same::same_text;
use dcr_conform::LogStop;
use dcr_cover_json::CoverStop;
use dcr_graph::{GraphStop, Label, LabelStop, Name, NameStop};
use dcr_report::ReportStop;
use dcr_set::EventId;
use std::test::Fail;

#[test]
fn stops_say_why(rt: HostRuntime) -> Result<(), Fail> {
    let alloc = rt.alloc();
    // A hundred and one letters of two bytes each are too long for a label.
    let long = "\u{e9}".repeat(alloc, 101)?;
    let no_label = Label::read(alloc, long.as_str()).err();
    let no_name = Name::read(alloc, "p m").err();
    let (a, b) = (EventId(1), EventId(2));
    let said = format!(in alloc;
        "{:?}\n{:?}\n{}\n{}\n{}\n{}\n{}\n{}\n{}\n{}\n{}\n{}\n{}\n{}\n{}\n{}",
        no_name,
        no_label,
        NameStop::NotName,
        NameStop::NoMemory,
        LabelStop::Long,
        LabelStop::NoMemory,
        GraphStop::Clash { a, b },
        GraphStop::NoMemory,
        CoverStop::SiteName { i: 3 },
        CoverStop::Owned { i: 3, j: 5 },
        CoverStop::Uncovered { a: EventId(7) },
        CoverStop::NoMemory,
        ReportStop::WriteFault,
        ReportStop::NoMemory,
        LogStop::Bad { row: 3 },
        LogStop::NoMemory
    )?;
    let wanted = "Some(NotName)
Some(Long)
not a name
out of memory
a label of more than 200 bytes
out of memory
a pair is both included and excluded
out of memory
the name of site 3 is no name, or is an earlier site's
owned text 5 of site 3 is no event's name
no site owns an atom
out of memory
the output failed
out of memory
a record that is none of a log
out of memory";
    same_text(&rt, said.as_str(), wanted, "stops");
    Ok(())
}
