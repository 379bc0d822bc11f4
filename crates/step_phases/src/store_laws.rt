//! Laws of stores at rest, and of the lists that hold them.
ghost use Rattle.step_phases.specs.StoreLaws.{RestIsOne, RestExists, HomesShowValues, RestIsRecord, SecondIsRecord, ListRests, RestFromList};

/// Stores at rest stand for one grid and one value of each of its cells.
pub fn rest_is_one()
    ensures { RestIsOne }
{}

/// For each grid and its values there are stores at rest.
pub fn rest_exists()
    ensures { RestExists }
{}

/// At rest a tree sees the value of each of its own cells at the home corner.
pub fn homes_show_values()
    ensures { HomesShowValues }
{}

/// A record that says what is so at rest is one at rest.
pub fn rest_is_record()
    ensures { RestIsRecord }
{}

/// A record that says what is so after the second exchange is one before an adaptation.
pub fn second_is_record()
    ensures { SecondIsRecord }
{}

/// Where a tree's store is at rest, each record of its list is.
pub fn list_rests()
    ensures { ListRests }
{}

/// Where each record of a tree's list is at rest, its store is.
pub fn rest_from_list()
    ensures { RestFromList }
{}
