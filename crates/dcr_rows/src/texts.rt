// What the refusals of a case print as errors.
use crate::same::same_text;
use dcr_graph::Name;
use dcr_json::{CaseStop, LimitKind, Part};
use std::alloc::Global;
use std::process::Abort;
use std::test::Fail;

fn assert_says(rt: &impl Abort, alloc: Global, stop: CaseStop, wanted: &str) -> Result<(), Fail> {
    let text = format!(in alloc; "{stop}")?;
    same_text(rt, text.as_str(), wanted, "text.as_str()");
    Ok(())
}

#[test]
fn stops_say_why(rt: HostRuntime) -> Result<(), Fail> {
    let part = Part::Graph;
    let kind = LimitKind::Nodes;
    let (i, j, k) = (0, 0, 0);
    let said = [
        (CaseStop::TooLong, "more than 16,777,216 bytes"),
        (CaseStop::NotJson, "no JSON text"),
        (
            CaseStop::Shape { part, index: 0 },
            "a part of another shape",
        ),
        (CaseStop::Limit { kind, count: 0 }, "a limit is broken"),
        (
            CaseStop::EventName { i },
            "no name of an event, or one that stands twice",
        ),
        (CaseStop::Parent { i }, "a parent that is no earlier event"),
        (CaseStop::MarkOnNest { i }, "a mark on a nest"),
        (
            CaseStop::RelationEnd { i },
            "a relation of an event that there is not",
        ),
        (
            CaseStop::SiteName { i },
            "no name of a site, or one that stands twice",
        ),
        (
            CaseStop::Owned { i, j },
            "a site owns an event that there is not",
        ),
        (CaseStop::CallLine { k, j }, "no call"),
        (CaseStop::NoMemory, "out of memory"),
    ];
    for (stop, wanted) in said {
        assert_says(&rt, rt.alloc(), stop, wanted)?;
    }
    Ok(())
}

#[test]
fn stops_with_names_say_why(rt: HostRuntime) -> Result<(), Fail> {
    let a = Name::read(rt.alloc(), "a")?;
    let uncovered = CaseStop::Uncovered { a };
    assert_says(&rt, rt.alloc(), uncovered, "an event that no site owns")?;
    let a = Name::read(rt.alloc(), "a")?;
    let b = Name::read(rt.alloc(), "b")?;
    let clash = CaseStop::Clash { a, b };
    assert_says(
        &rt,
        rt.alloc(),
        clash,
        "a pair is both included and excluded",
    )
}
