//! Laws over the definitions: functions that do nothing, each with a law as its contract.
ghost use Rattle.std.specs.Prelude.{◌≡◌, List, ℕ};
ghost use Rattle.xmp_base.specs.Device.{Files};
ghost use Rattle.xmp_cli.specs.Answer.{Outcome, IsOutcome};
ghost use Rattle.xmp_cli.specs.Commands.{command};

/// Words and files have at most one outcome.
pub fn one_outcome()
    ensures { (words : List (List ℕ)) (files : Files) (a b : Outcome) → IsOutcome (command words) files a → IsOutcome (command words) files b → a ≡ b }
{}
