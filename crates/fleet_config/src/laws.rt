//! What is found by an id in a fleet.
ghost use Rattle.fleet_config.specs.Laws.{FindsMinionsBelow, FindsPlaces};

/// Laws: a minion that is a node or lies below it is found by its id among the ids below that node. The node at the place of an id has
/// that id, where there is one.
pub fn minions_are_found()
    ensures below { FindsMinionsBelow }
    ensures places { FindsPlaces }
{}
