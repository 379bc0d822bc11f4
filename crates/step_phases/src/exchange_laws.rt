//! Laws of exchanges between all trees, for all cuts of both dimensions and every grid.
ghost use Rattle.step_phases.specs.ExchangeLaws.{OwnerHasVertex, ExchangeAgrees, OpeningRests, FirstExchange, SecondExchange, ThirdExchange, SecondRests};

/// The owner of a cell has a copy of each stored vertex of that cell.
pub fn owner_has_vertex()
    ensures { OwnerHasVertex }
{}

/// An exchange makes the copies agree with the owner's.
pub fn exchange_agrees()
    ensures { ExchangeAgrees }
{}

/// The opening exchange brings the stores to rest.
pub fn opening_rests()
    ensures { OpeningRests }
{}

/// The first exchange spreads marks and new values.
pub fn first_exchange()
    ensures { FirstExchange }
{}

/// The second exchange spreads new values and intents, and takes the new values over.
pub fn second_exchange()
    ensures { SecondExchange }
{}

/// The third exchange brings adapted stores to rest.
pub fn third_exchange()
    ensures { ThirdExchange }
{}

/// Where the grid stays, the second exchange brings the stores to rest.
pub fn second_rests()
    ensures { SecondRests }
{}
