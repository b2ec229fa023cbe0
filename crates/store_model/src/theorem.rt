ghost use Rattle.bucket_core.specs.Laws.{ClaimsStay, TestsTell};
ghost use Rattle.bucket_core.specs.Calls.{MovesOn};
ghost use Rattle.store_model.specs.Law.{IsClaimed};
ghost use Rattle.store_model.specs.Intact.{IsIntact, IsAsPut, IsShown};
ghost use Rattle.store_model.specs.Once.{PiecesOnce, NamedOnce};
ghost use Rattle.store_model.specs.Promises.{InEachLawful, EventsKeep, BeginningsAreLawful, ChainsCanBeFollowed};
ghost use Rattle.store_model.specs.Walks.{LawfulWalks};
ghost use Rattle.store_model.specs.PlainWalks.{PlainWalks};
ghost use Rattle.store_model.specs.Listings.{AllListsAgree};
ghost use Rattle.store_model.specs.Collected.{CollectsAll};
ghost use Rattle.store_model.specs.Settled.{LooksSettle};

/// In every lawful history nothing that is needed was dropped: what live and held versions reach, the elements of each chain from
/// its reference back to its last Compact, and the staged pieces that are not consumed stand as they were put. The elements tell
/// the symbol's state, and the tiles of each version are its whole frame.
pub fn nothing_needed_is_dropped()
    ensures intact { InEachLawful IsIntact }
    ensures as_put { InEachLawful IsAsPut }
    ensures shown { InEachLawful IsShown }
{}

/// Each event that may follow keeps these facts, whatever history they are facts of.
pub fn each_event_keeps_what_is_needed()
    ensures { EventsKeep IsIntact }
{}

/// In every lawful history each staged piece is consumed at most once, and each holder has at most one name.
pub fn pieces_are_consumed_once()
    ensures pieces { InEachLawful PiecesOnce }
    ensures holders { InEachLawful NamedOnce }
{}

/// Each beginning of a lawful history is lawful, so that a client may stop behind any event.
pub fn beginnings_are_lawful()
    ensures { BeginningsAreLawful }
{}

/// What a client claims of an event stays so while others add lawful events that do not touch it.
pub fn claims_stay()
    ensures { ClaimsStay IsClaimed }
{}

/// The store's test of an event shows that the events which others added do not touch it.
pub fn tests_tell()
    ensures { TestsTell IsClaimed }
{}

/// A reference that has moved on from an entry does not come back to it.
pub fn references_move_on()
    ensures { MovesOn IsClaimed }
{}

/// A walk along the elements of a lawful history, from the reference back to the last Compact, finds the symbol's state, and the reference
/// leads along them: each element names the one before it. While gate C is closed these are the elements of all its Refers, each of which
/// stands, and the state is found in the order in which it was told; while gate P is closed no link has pages.
pub fn walks_give_the_state()
    ensures state { LawfulWalks }
    ensures followed { ChainsCanBeFollowed }
    ensures plainly { PlainWalks }
{}

/// In every history the lists of the library name, in ascending order, exactly the symbols that have a reference and the
/// snapshots that stand.
pub fn library_lists_agree()
    ensures { AllListsAgree }
{}

/// Where each client has taken back what it never linked, and nothing is stored that was needed and is so no more, the stored keys are
/// exactly those that somebody needs. Whether sweeps come to the second of these is not said here: they do not where a dead tile's index
/// has gone before it.
pub fn nothing_is_left_over()
    ensures { CollectsAll }
{}

/// A version that was its symbol's base when it was held, and that a second look finds live with none linked behind it, was the
/// base at each place between.
pub fn second_looks_settle()
    ensures { LooksSettle }
{}
