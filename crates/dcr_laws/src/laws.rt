ghost use Rattle.dcr_laws.specs.Laws.{LocalCauseIsTheCause, LocalStepIsTheStep, OutsideNothingChanges, SitesWaitAsTheGraph, UntouchedMarksStay, UntouchedByTheSet, SitesRunAsTheGraph, ToldHasEachCall, ToldHasNoOtherSession, ToldIsSound, ARunIsDone, ARunIsOfAtoms, EachRunIsSpelled};

/// The local cause. For an event that a site owns, the cause that is read from the site's projection of a marking
/// and its local rules is the cause of the graph at that marking: the site decides alone.
pub fn l1()
    ensures { LocalCauseIsTheCause }
{}

/// The local step. For an event of a site's alphabet the local step of the projection is the projection of the
/// graph's step, and an event outside the alphabet doesn't change the projection: the site need hear of no other.
pub fn l2()
    ensures inside { LocalStepIsTheStep }
    ensures outside { OutsideNothingChanges }
{}

/// Waiting. Where the owned sets cover the atoms, the least event that is included and pending is the least of
/// those that the sites find among what they own, each by its own projection.
pub fn l3()
    ensures { SitesWaitAsTheGraph }
{}

/// Touches. Where as many executions of a site's alphabet were done in the beginning of a list of entries as in the
/// whole, the site's projection after the beginning is that after the whole: marks that heard of the beginning alone
/// are still right. The same holds of the alphabet as a set, which has atoms alone, for calls in range.
pub fn l4()
    ensures by_the_test { UntouchedMarksStay }
    ensures by_the_set { UntouchedByTheSet }
{}

/// The core over lists. For every graph, cover, opening marking and list of calls in range, the run that the sites
/// have alone, each call taken as one step by their own marks and local rules, is the run of the graph: the same
/// entries, and after them each site has the projection of the graph's marking.
pub fn l6()
    ensures { SitesRunAsTheGraph }
{}

/// The run of sessions that go one after the other has every call of each session, once and in order, and no entry
/// of another session; and where the calls are in range it is a run of the graph in which nothing failed.
pub fn told_has_each_call()
    ensures calls { ToldHasEachCall }
    ensures sessions { ToldHasNoOtherSession }
    ensures sound { ToldIsSound }
{}

/// Events that can be executed one after the other are answered done at every call, where a single session asks for
/// each at a site that owns it. Where the marking has the graph's room these events are atoms, and where besides the
/// owned sets cover the atoms some session asks so: every run of the graph is one of calls.
pub fn a_run_is_done()
    ensures answered { ARunIsDone }
    ensures atoms { ARunIsOfAtoms }
    ensures spelled { EachRunIsSpelled }
{}
