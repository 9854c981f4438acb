//! The command that words are.
ghost use Rattle.std.specs.Prelude.{◌≡◌};
ghost use Rattle.std.specs.Option.{option_map};
ghost use Rattle.vp_cmd.specs.Commands.{command_of, from_to, number_within, rounds_of, seed_of, self_test, texts, three_words, two_words};
ghost use Rattle.vp_cmd.specs.Shown.{shown};

/// A command, with the names of its files and its numbers.
#[derive(Clone, Copy, Debug)]
pub(crate) enum Command<'a> {
    /// Checks a package.
    Check(&'a str),
    /// Compiles a package to an image.
    Compile(&'a str),
    /// Runs an image over the input.
    Exec(&'a str),
    /// Compiles a package and runs it over the input.
    Run(&'a str),
    /// Lists what is made of a package.
    Listing(&'a str),
    /// Makes a stream of a log, by the names of a package.
    Log(&'a str, &'a str),
    /// Runs the stored package over as many rounds of drawn numbers, from a seed.
    SelfTest { seed: u64, rounds: u64 },
    /// Writes the image of the stored package.
    Demo,
}

/// The number that a text of 1 to `most` decimal digits writes, where it fits 64 bits.
fn number_within(text: &str, most: usize) -> Option<u64>
    ensures { result ≡ from_to 0 18_446_744_073_709_551_615 (number_within most text.now) }
{
    if text.len() > most || text.starts_with('+') {
        return None;
    }
    text.parse().ok()
}

/// The seed that a word is: 1 to 20 digits, below 2^64.
fn seed_of(text: &str) -> Option<u64>
    ensures { result ≡ seed_of text.now }
{
    number_within(text, 20)
}

/// The number of rounds that a word is: 1 to 6 digits, from 1 to 100,000.
fn rounds_of(text: &str) -> Option<u64>
    ensures { result ≡ rounds_of text.now }
{
    match number_within(text, 6) {
        Some(rounds) if rounds >= 1 && rounds <= 100_000 => Some(rounds),
        _ => None,
    }
}

/// The self-test of a seed and a number of rounds, where both words are such.
fn self_test<'a>(seed: &str, rounds: &str) -> Option<Command<'a>>
    ensures { option_map shown result ≡ self_test (seed_of seed.now) (rounds_of rounds.now) }
{
    match (seed_of(seed), rounds_of(rounds)) {
        (Some(seed), Some(rounds)) => Some(Command::SelfTest { seed, rounds }),
        _ => None,
    }
}

/// The command of two words.
fn two_words<'a>(word: &str, name: &'a str) -> Option<Command<'a>>
    ensures { option_map shown result ≡ two_words word.now name.now }
{
    match word {
        "check" => Some(Command::Check(name)),
        "compile" => Some(Command::Compile(name)),
        "exec" => Some(Command::Exec(name)),
        "run" => Some(Command::Run(name)),
        "list" => Some(Command::Listing(name)),
        _ => None,
    }
}

/// The command of three words.
fn three_words<'a>(word: &str, first: &'a str, second: &'a str) -> Option<Command<'a>>
    ensures { option_map shown result ≡ three_words word.now first.now second.now }
{
    match word {
        "log" => Some(Command::Log(first, second)),
        "selftest" => self_test(first, second),
        _ => None,
    }
}

/// The command that words are, if they are one.
pub(crate) fn command_of(words: &[String]) -> Option<Command<'_>>
    ensures { option_map shown result ≡ command_of (texts words.now) }
{
    match words {
        [word] if word.as_str() == "demo" => Some(Command::Demo),
        [word, name] => two_words(word.as_str(), name.as_str()),
        [word, first, second] => three_words(word.as_str(), first.as_str(), second.as_str()),
        _ => None,
    }
}
