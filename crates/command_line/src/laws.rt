ghost use Rattle.std.specs.Prelude.{◌≡◌, ◌⊎◌, ◌↔◌, ℕ, List, [], ◌∷◌};
ghost use Rattle.std.specs.List.{All};
ghost use Rattle.command_line.specs.CommandLine.{AsksForHelp, IsHelpOption, IsVersionOption, Line, Spells};
ghost use Rattle.command_line.specs.CommandLine.{commands, faults_of};

/// A law: the words that clap takes are those that spell a line.
pub fn a_command_line_spells_a_request()
    ensures { (words : List (List ℕ)) → (faults_of words ≡ []) ↔ ((line : Line) × Spells words line) }
{}

/// A law: words that begin with an option for help or for the version ask for it, and so does a command that
/// is followed by an option for help.
pub fn the_help_options_ask_for_help()
    ensures first { (option : List ℕ) (rest : List (List ℕ)) → IsHelpOption option ⊎ IsVersionOption option
        → AsksForHelp (option ∷ rest) }
    ensures second { (option : List ℕ) (rest : List (List ℕ)) → IsHelpOption option
        → All (λ command. AsksForHelp (command ∷ option ∷ rest)) commands }
{}
