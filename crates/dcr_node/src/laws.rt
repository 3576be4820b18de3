ghost use Rattle.dcr_node.specs.Laws.{EveryWorldIsRight, EveryJournalIsLegal, EverySiteHeardABeginning, EachEventKeepsRight, SitesHeardABeginning, ASiteMayBeginAnew, NothingElseIsTold, AskingTells, AnItemIsHeard, AnAnswerTells, TheEndsAreTheGraphs, AllAnswersTell, AskingAllTells};

/// Whatever happens to the nodes of a case and their network, in whatever order, whatever calls are proposed and however
/// often sites begin anew: the world is right, its journal is a run of the graph, so that each call has the graph's answer
/// at its place, and each site has heard of a beginning of it, whose projection its marks are.
pub fn every_world_is_right()
    ensures right { EveryWorldIsRight }
    ensures legal { EveryJournalIsLegal }
    ensures marks { EverySiteHeardABeginning }
    ensures kept { EachEventKeepsRight }
{}

/// Each site of a right world has heard of no more executions than were done of its alphabet; after each beginning of the
/// journal with just so many of them its marks are the projection, and the shortest such beginning is there.
pub fn sites_heard_a_beginning()
    ensures { SitesHeardABeginning }
{}

/// A right world in which a site is put back to the marks that it began with, having heard of nothing, is right: a node
/// that is started anew need only be told its stream again.
pub fn a_site_may_begin_anew()
    ensures { ASiteMayBeginAnew }
{}

/// Of every event that proposes nothing the journal stays, or the proposal that was out has its entry, exactly as the
/// graph tells it. Where the asked site has heard of its whole stream, asking again and two deliveries tell it. A site
/// hears of the next execution of its stream by one item and its delivery.
pub fn proposals_are_told()
    ensures nothing_else { NothingElseIsTold }
    ensures asking { AskingTells }
    ensures hearing { AnItemIsHeard }
{}

/// An answer leaves the journal but for what is gathered, or the call that was out has its entry, exactly as the graph tells
/// it. What was gathered of all sites are the graph's marks after the entries, and its verdict.
pub fn answers_are_told()
    ensures answering { AnAnswerTells }
    ensures ends { TheEndsAreTheGraphs }
{}

/// Once what each site tells that the call which is out asks was delivered, the call has its entry, exactly as the graph tells
/// it, and nothing else changed: in whatever order it was delivered, however often, and with whatever other answers among it.
/// Where the sites that are asked have heard of their whole streams, asking each of them and delivering the questions and then
/// the answers, in the order sent, brings that.
pub fn asking_brings_the_answer()
    ensures answers { AllAnswersTell }
    ensures asking { AskingAllTells }
{}
