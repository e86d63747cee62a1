ghost use Rattle.base_map.specs.Map.{EdgesAreWays};

/// The map of a frame has one edge for each id that one of its ways seeks, with the keys that seek it and no others. To a frame
/// that is found, these are the keys of the ways that lead there.
pub fn edges_are_ways()
    ensures { EdgesAreWays }
{}
