//! Laws of the game between inputs and outputs. Each function here does nothing: its contract is the law.
ghost use Rattle.dcv_synth.specs.Laws.{WinnersAreNotBeaten, HeldStatesAreNotBeaten, UnbeatenStatesAreWin, UnbeatenStatesAreHeld};
ghost use Rattle.dcv_synth.specs.Laws.{LeastOutputsWin, LeastMovesBeat, ControlsWin, NotBothAreRight};
ghost use Rattle.dcv_synth.specs.Laws.{OneControlIsRight, OneStrategyIsRight};
ghost use Rattle.dcv_synth.specs.Laws.{ControlsOfLikeAutomata, StrategiesOfLikeAutomata, TablesGoOnAlike};
ghost use Rattle.dcv_synth.specs.Laws.{StrategiesBeat, WinsOverSameBehaviours, BeatsOverSameBehaviours};
ghost use Rattle.dcv_synth.specs.Laws.{UnitsKeepTheRules, UnitsAnswer, UnitsWin, SameControlsHaveOneUnit};
ghost use Rattle.dcv_synth.specs.Laws.{ControlsHaveLeastLines, LeastLinesAreOne};

use dcv_dfa::laws::{lines_are_of_rows, tables_have_the_states};

/// No environment beats a controller that wins.
pub fn winners_are_not_beaten()
    ensures { WinnersAreNotBeaten }
{}

/// A state from which each input can be answered for ever is never beaten. Where one letter more beats no further state that
/// accepts, those that accept and are not beaten are the greatest set of such states.
pub fn some_player_wins()
    ensures unbeaten { HeldStatesAreNotBeaten }
    ensures win { UnbeatenStatesAreWin }
    ensures held { UnbeatenStatesAreHeld }
{}

/// The controller of least outputs wins, where each first input can be answered.
pub fn least_outputs_win()
    ensures { LeastOutputsWin }
{}

/// The diagrams of least outputs describe a controller that wins.
pub fn controls_win()
    ensures { ControlsWin }
{}

/// Where each first input can be answered by an output that leads into Win, the start has no rank.
pub fn one_side_is_right()
    ensures { NotBothAreRight }
{}

/// The controller of least outputs is determined, and so is the strategy of least moves.
pub fn answers_are_one()
    ensures control { OneControlIsRight }
    ensures strategy { OneStrategyIsRight }
{}

/// The least moves of the states that have a rank beat every controller within the rank of the start.
pub fn least_moves_beat()
    ensures { LeastMovesBeat }
{}

/// Automata that go on alike at the letters over the variables have the same controllers and strategies. A raw automaton goes on as
/// its table does, so which answer is right is a question of the table alone.
pub fn answers_are_of_tables()
    ensures controls { ControlsOfLikeAutomata }
    ensures strategies { StrategiesOfLikeAutomata }
    ensures tables { TablesGoOnAlike }
{
    tables_have_the_states();
}

/// The strategy of least moves beats every controller.
pub fn strategies_beat()
    ensures { StrategiesBeat }
{
    least_moves_beat();
}

/// Who wins depends on the behaviours of the set alone.
pub fn winners_of_same_behaviours()
    ensures wins { WinsOverSameBehaviours }
    ensures beats { BeatsOverSameBehaviours }
{}

/// The unit of a controller is one of the C subset, and its steps return what the controller answers. So it wins where the controller does.
pub fn units_answer()
    ensures rules { UnitsKeepTheRules }
    ensures answers { UnitsAnswer }
    ensures wins { UnitsWin }
{
    lines_are_of_rows();
}

/// Controllers that do the same have one unit.
pub fn units_are_one()
    ensures { SameControlsHaveOneUnit }
{
    lines_are_of_rows();
}

/// The controller of least outputs has the least lines, and there are no others. So a requirement has one controller's unit.
pub fn least_lines_are_one()
    ensures have { ControlsHaveLeastLines }
    ensures one { LeastLinesAreOne }
{}
