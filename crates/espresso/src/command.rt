//! What a command line can ask for: the commands with their names, how many files and which options each
//! takes, and the words that options take.
ghost use Rattle.std.specs.Prelude.{◌≡◌};
ghost use Rattle.espresso.specs.Words.{allows, command_named, eat_named, takes_two, type_named};

use minimum::Choice;
use pla::OutType;

/// A command: what is printed of the files that were read.
#[derive(Clone, Copy, Debug, PartialEq, Eq)]
pub enum Command {
    /// The PLA with its lists as given.
    Echo,
    /// Whether the three sets part the space.
    Check,
    /// The PLA without the cubes of its ON list that lie in others of it.
    Contain,
    /// The PLA with the primes for its ON list.
    Primes,
    /// The PLA with the essential primes for its ON list.
    Essen,
    /// The PLA with the least cover by primes for its ON list: the first, in the order of the list
    /// of primes, of the covers with fewest primes, under `--literals` of those with fewest
    /// literals.
    Exact,
    /// Whether the ON-set is everything.
    Tautology,
    /// Whether two files agree outside their DC-sets.
    Verify,
    /// The places in both files' ON-sets, as a PLA of type f.
    Intersect,
    /// The places in the first file's ON-set and not in the second's, as a PLA of type f.
    Sharp,
}

impl Command {
    // Whether the command takes two files.
    pub(crate) fn takes_two(self) -> bool
        ensures { result ≡ takes_two self }
    {
        match self {
            Command::Verify | Command::Intersect | Command::Sharp => true,
            _ => false,
        }
    }

    // Whether the command takes this output type and this choice.
    pub(crate) fn allows(self, out: OutType, choice: Choice) -> bool
        ensures { result ≡ allows self out choice }
    {
        match (self, out, choice) {
            (Command::Exact, _, _) => true,
            (Command::Intersect | Command::Sharp, OutType::F, Choice::First) => true,
            (Command::Intersect | Command::Sharp, _, _) => false,
            (_, _, Choice::First) => true,
            (_, _, Choice::Literals) => false,
        }
    }
}

// The command of this name, `None` if there is none.
pub(crate) fn command_of(name: &str) -> Option<Command>
    ensures { result ≡ command_named name.now }
{
    match name {
        "echo" => Some(Command::Echo),
        "check" => Some(Command::Check),
        "contain" => Some(Command::Contain),
        "primes" => Some(Command::Primes),
        "essen" => Some(Command::Essen),
        "exact" => Some(Command::Exact),
        "tautology" => Some(Command::Tautology),
        "verify" => Some(Command::Verify),
        "intersect" => Some(Command::Intersect),
        "sharp" => Some(Command::Sharp),
        _ => None,
    }
}

// The output type of this name, `None` if there is none.
pub(crate) fn out_type_of(name: &str) -> Option<OutType>
    ensures { result ≡ type_named name.now }
{
    match name {
        "f" => Some(OutType::F),
        "fd" => Some(OutType::Fd),
        "fr" => Some(OutType::Fr),
        "fdr" => Some(OutType::Fdr),
        _ => None,
    }
}

// `true` for `eat`, the one word that `-e` takes; `None` for any other.
pub(crate) fn eat_of(name: &str) -> Option<bool>
    ensures { result ≡ eat_named name.now }
{
    match name {
        "eat" => Some(true),
        _ => None,
    }
}
