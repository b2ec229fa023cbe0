ghost use Rattle.reply_model.specs.Legal.{LegalStays};
ghost use Rattle.reply_model.specs.Runs.{LegalIsIsolated, RefusedHarmsNothing, RefusedReleases};
ghost use Rattle.reply_model.specs.Standing.{LegalAloneSteps, LegalReclaimsAlone, RunsAreSole, BlocksAreSole, RunsGrow};

/// Replies that are legal in a history are legal in each longer one.
pub fn legal_replies_stay_legal()
    ensures { LegalStays }
{}

/// No own event of a refused command changes versions, buried numbers or staged pieces, failures of the store aside; and each hold
/// that a refused snapshot made it released again, or names as left.
pub fn refused_commands_change_nothing()
    ensures harmless { RefusedHarmsNothing }
    ensures released { RefusedReleases }
{}

/// A command that is alone on its symbol answers what it would answer where its window begins: where no event of others in the window
/// names the symbol, each legal reply has the outcome of the one-thread library there, or, of `keys` and `reclaim`, the counts of
/// the keys that are stored there and of those that are dead there, want of memory, failures and a full store aside.
pub fn commands_are_isolated()
    ensures { LegalIsIsolated }
{}

/// In a window without events of others each legal reply is the one that the fold of one client alone gives, and the history behind it
/// is where the fold then stands: for the commands that are served, want of memory, failures and a full store aside.
pub fn legal_replies_alone_are_sole()
    ensures { LegalAloneSteps }
{}

/// So is a legal reclaim that is refused, or whose place is where the window begins: it counts the keys that the fold's blocks, indexes and pieces have
/// which no live or held version has, and these keys are then not stored.
pub fn legal_reclaims_alone_are_sole()
    ensures { LegalReclaimsAlone }
{}

/// Such steps make runs, one command after another; and a run from the empty history is that of one client alone, also where a second
/// client's block stands between first and last commands.
pub fn runs_alone_are_sole()
    ensures grow { RunsGrow }
    ensures sole { RunsAreSole }
    ensures blocks { BlocksAreSole }
{}
