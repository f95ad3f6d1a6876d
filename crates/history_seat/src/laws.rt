// Laws of the word: what follows of the steps, whoever makes them and in whatever order. The functions have empty bodies and the laws as their contracts.
ghost use Rattle.std.specs.Prelude.{ℕ, List};
ghost use Rattle.history_seat.specs.Rule.{OneHistory, Standing};
ghost use Rattle.history_seat.specs.Steps.{Makes, Runs, StaysKnown, Step, start};

/// There is one history whatever steps are made: it is there when the word is made, each step keeps it, and so it is there after
/// each list of steps. What was ever known of it is a front of it for good.
pub fn steps_keep_one_history()
    ensures step { (base : ℕ) (step : Step) (old new : Standing) → OneHistory base old
        → Makes base step old new → OneHistory base new }
    ensures steps { (base : ℕ) (steps : List Step) (new : Standing)
        → Runs base steps (start base) new → OneHistory base new }
    ensures known { (base : ℕ) (steps : List Step) (old new : Standing) → OneHistory base old
        → Runs base steps old new → StaysKnown old new }
{}
