ghost use denote.Param.Send.{IsSync};
ghost use Rattle.phase_automaton.specs.contracts.automaton.Automaton as Automaton;

/// An automaton may be shared among threads.
pub fn automata_are_shared()
    ensures { IsSync Automaton.the_row }
{}
