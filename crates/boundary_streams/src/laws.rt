//! Laws of exchanges, each for all keys, grids and stores.
ghost use Rattle.boundary_streams.specs.Laws.{SendsToHolders, ListsHoldVertices, MergeKeepsLists, ExchangeTakesOwners, WhenSentIsFree, CopiesAgree, OpeningRests, FirstSpreads, SecondSpreads, ThirdRests};

/// A tree sends another one the vertices round which that one holds a position.
pub fn sends_to_holders()
    ensures { SendsToHolders }
{}

/// A store with the lists that a sweep reads can be collected from and merged into, and holds its grid's vertices.
pub fn lists_hold_vertices()
    ensures { ListsHoldVertices }
{}

/// A merge keeps the lists that a sweep reads.
pub fn merge_keeps_lists()
    ensures { MergeKeepsLists }
{}

/// An exchange gives each copy of a vertex the slots of the owners.
pub fn exchange_takes_owners()
    ensures { ExchangeTakesOwners }
{}

/// Sending before or after one's own merge is the same.
pub fn when_sent_is_free()
    ensures { WhenSentIsFree }
{}

/// After an exchange each slot of a cell agrees with the owner's.
pub fn copies_agree()
    ensures { CopiesAgree }
{}

/// The opening exchange brings raised stores to rest.
pub fn opening_rests()
    ensures { OpeningRests }
{}

/// The first exchange spreads marks and new values.
pub fn first_spreads()
    ensures { FirstSpreads }
{}

/// The second exchange spreads new values and intents, and takes the new values over.
pub fn second_spreads()
    ensures { SecondSpreads }
{}

/// The third exchange brings adapted stores to rest.
pub fn third_rests()
    ensures { ThirdRests }
{}
