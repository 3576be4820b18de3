// Worked rows: what a journal and the lists of calls and marks tell of themselves.
use crate::build::event_set;
use crate::same::same;
use dcr_graph::SiteMark;
use dcr_journal::{Call, CallList, Entry, Journal, MarkList, Outcome};
use dcr_set::{EventId, SiteId};
use std::test::Fail;

// Marks at which gm is executed, s is pending, and nothing is included.
fn mark() -> SiteMark {
    SiteMark {
        executed: event_set(&[2]),
        pending: event_set(&[1]),
        included: event_set(&[]),
    }
}

#[test]
fn a_journal_tells_what_it_has(rt: HostRuntime) -> Result<(), Fail> {
    let mut journal = Journal::open(rt.alloc(), 2)?;
    assert!(rt; journal.is_empty() && journal.last().is_none() && journal.get(0).is_none());
    let call = Call::Exec(SiteId(1), EventId(3));
    for (seq, outcome) in [(8, Outcome::Faulted), (9, Outcome::Marks(mark()))] {
        assert!(rt; journal.spare() > 0);
        journal.push(Entry {
            session: 7,
            seq,
            call,
            outcome,
        });
    }
    same(
        &rt,
        &(journal.len(), journal.spare()),
        &(2, 0),
        "a full one",
    );
    let first = journal.get(0);
    assert!(rt;
        matches!(
            &first,
            Some(Entry {
                session: 7,
                seq: 8,
                outcome: Outcome::Faulted,
                ..
            })
        )
    );
    let copy = journal.copy(rt.alloc())?;
    same(
        &rt,
        &(copy.len(), copy.spare()),
        &(2, 0),
        "a copy of a full one",
    );
    let last = copy.last();
    assert!(rt; !journal.is_empty() && journal.get(2).is_none());
    assert!(rt;
        matches!(
            &last,
            Some(Entry {
                session: 7,
                seq: 9,
                outcome: Outcome::Marks(_),
                ..
            })
        )
    );
    Ok(())
}

#[test]
fn a_list_of_calls_and_one_of_marks_are_read(rt: HostRuntime) -> Result<(), Fail> {
    let calls = [
        Call::Exec(SiteId(0), EventId(2)),
        Call::Look(SiteId(1)),
        Call::Enabled(SiteId(0)),
        Call::Accepting,
    ];
    let list = CallList::new(Vec::from_slice(rt.alloc(), &calls)?);
    let none = CallList::new(Vec::new(rt.alloc()));
    for (place, call) in calls.iter().enumerate() {
        same(&rt, &list.get(place), &Some(call), "a call");
    }
    assert!(rt; !list.is_empty() && list.len() == 4 && list.get(4).is_none());
    assert!(rt; none.is_empty() && none.len() == 0 && none.get(0).is_none());
    let marks = MarkList::new(Vec::from_array(rt.alloc(), [mark()])?);
    assert!(rt; !marks.is_empty() && marks.len() == 1 && marks.get(1).is_none());
    let executed = marks.get(0).and_then(|mark| mark.executed.first());
    same(&rt, &executed, &Some(EventId(2)), "marks");
    Ok(())
}
