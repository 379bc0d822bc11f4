//! Laws of worlds.
ghost use Rattle.step_driver.specs.Worlds.{WorldIsAtOne, WorldStands};
ghost use Rattle.step_driver.specs.Showing.{OneTraffic, TrafficExists};
ghost use Rattle.step_driver.specs.Starts.{EqualKeysExist};

use solver_api::Solver;

/// A world is at no more than one grid and field, after one number of steps.
pub fn world_is_at_one<S: Solver>()
    ensures { WorldIsAtOne S }
{}

/// The copies of a world's trees stand for the grid and the field that it is at.
pub fn world_stands<S: Solver>()
    ensures { WorldStands S }
{}

/// The traffic of all trees is one list.
pub fn one_traffic()
    ensures { OneTraffic }
{}

/// There is traffic of all trees to tell.
pub fn traffic_exists()
    ensures { TrafficExists }
{}

/// There are keys to start with for each grid.
pub fn equal_keys_exist()
    ensures { EqualKeysExist }
{}
