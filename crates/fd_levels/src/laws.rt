// Levels are least numbers, and none is above the number of buses.
ghost use Rattle.fd_levels.specs.LevelLaws.{LastLevelLaw, LevelLaw};

/// A law: the level of a bus is the least number of feeds that lead to it from the source or from ground, one behind
/// another, where that isn't above the number of buses; else it has none. Does nothing.
#[tactic(auto, using(crate::proofs::Least::least))]
pub fn level_law()
    ensures { LevelLaw }
{}

/// A law: a bus to which feeds lead from the source or from ground, however many one behind another, has a level: none is
/// above the number of buses. Does nothing.
#[tactic(auto, using(crate::proofs::Last::last_level))]
pub fn last_level_law()
    ensures { LastLevelLaw }
{}
