//! What holds of every list of calls. A caller of these learns the fact.
ghost use Rattle.ledger.specs.Labelling.{ClosedLabellingsAreLabels, NearPathsAreShortest};
ghost use Rattle.ledger.specs.Promise.{FreshRunsKeepThePromise, LedgersStaySound, RunsKeepThePromise};

/// Where every call of a run is answered as the ledger before it says, every judgement is right.
pub fn runs_keep_the_promise()
    ensures runs { RunsKeepThePromise }
    ensures fresh { FreshRunsKeepThePromise }
{}

/// A fresh ledger is sound, and each call keeps it so.
pub fn ledgers_stay_sound()
    ensures { LedgersStaySound }
{}

/// A closed labelling that holds nothing but what flow paths bring is the labels, and a flow path of no more flows than the distance is a shortest one.
pub fn labellings_stand()
    ensures labels { ClosedLabellingsAreLabels }
    ensures paths { NearPathsAreShortest }
{}
