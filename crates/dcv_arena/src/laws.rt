//! Laws of arenas and diagrams. Each function here does nothing: its contract is the law.
ghost use Rattle.dcv_arena.specs.Laws.{OneRefForOneFunction, OneRefForOneTable, NewNodeIsNewFunction};
ghost use Rattle.dcv_arena.specs.Laws.{EarlierSlotsAreIgnored, OwnSlotMatters};
ghost use Rattle.dcv_arena.specs.Laws.{NodesAreOfFunctions, NodesAreApart, NodesAreCounted, NodesAreOfAnyFront};
ghost use Rattle.dcv_arena.specs.Laws.{RefsAreKeptByItself, RefsAreKeptInTurn};
ghost use Rattle.dcv_arena.specs.Laws.{NoNodesAreOfNoRoots, OneMoreRoot, PartsAreAddedInTurn, PartsAreKept};
ghost use Rattle.dcv_arena.specs.Laws.{NodesAreBehindFronts, NewNodeIsOneMore, AddedNodesAreCounted, FewerNodesAreNoMore};
ghost use Rattle.dcv_arena.specs.Laws.{BlocksAreOfFronts, FirstHalfIsOfFalse, SecondHalfIsOfTrue};

/// Two refs of an arena are equal exactly where their functions are, and a node that is new has a function
/// that no ref has.
pub fn refs_are_functions()
    ensures letters { OneRefForOneFunction }
    ensures tables { OneRefForOneTable }
    ensures new { NewNodeIsNewFunction }
{}

/// The level of a ref is the first slot that its function depends on.
pub fn levels_are_first_slots()
    ensures earlier { EarlierSlotsAreIgnored }
    ensures own { OwnSlotMatters }
{}

/// The nodes of an arena are exactly the nodes of its refs' functions, each once.
pub fn nodes_are_of_functions()
    ensures nodes { NodesAreOfFunctions }
    ensures apart { NodesAreApart }
    ensures count { NodesAreCounted }
    ensures blocks { NodesAreOfAnyFront }
{}

/// What was kept by one call after another is kept by all of them.
pub fn refs_are_kept()
    ensures itself { RefsAreKeptByItself }
    ensures turn { RefsAreKeptInTurn }
{}

/// Where functions are added one after another, each by its parts, the arena has their nodes and no others.
pub fn roots_have_the_nodes()
    ensures none { NoNodesAreOfNoRoots }
    ensures more { OneMoreRoot }
    ensures turn { PartsAreAddedInTurn }
    ensures kept { PartsAreKept }
{}

/// What a call adds on its way to a function that no ref means yet has nodes of that function alone.
pub fn nodes_are_of_what_is_meant()
    ensures fronts { NodesAreBehindFronts }
    ensures new { NewNodeIsOneMore }
    ensures added { AddedNodesAreCounted }
    ensures fewer { FewerNodesAreNoMore }
{}

/// The blocks of a table are those of the letters that begin alike, and their halves those of the values in
/// the next slot.
pub fn blocks_are_of_letters()
    ensures blocks { BlocksAreOfFronts }
    ensures first { FirstHalfIsOfFalse }
    ensures second { SecondHalfIsOfTrue }
{}
