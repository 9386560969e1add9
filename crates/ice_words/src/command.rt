//! The words behind the program's name.
ghost use Rattle.std.specs.Prelude.{◌<◌, ◌≤◌, ◌^◌, length, decimal, ◌≡◌, ◌∷◌, [], ℕ, List, map, string_bytes, MatchOption};
ghost use Rattle.ice_words.specs.Command.{IsCommand, IsNoCommand};
ghost use Rattle.ice_words.specs.Words.{command_of};

use ice_line::natural;

/// A command, with the names of its files.
pub enum Command<'a> {
    /// `check JOURNAL`
    Check {
        journal: &'a str,
    },
    /// `best EXCHANGE PRICES`
    Best {
        exchange: &'a str,
        prices: &'a str,
    },
    /// `regret EXCHANGE`
    Regret {
        exchange: &'a str,
    },
    /// `xor FILE`
    Xor {
        file: &'a str,
    },
    /// `replay JOURNAL N`
    Replay {
        journal: &'a str,
        /// The number of a settlement, at most 20.
        number: u8,
    },
    /// `gen NUMBER`
    Gen {
        number: u32,
    },
    /// `run EXCHANGE ROUND..`, with up to 20 round files
    Run {
        exchange: &'a str,
        rounds: &'a [String],
    },
    /// `migrate JOURNAL`
    Migrate {
        journal: &'a str,
    },
    /// `simulate EXCHANGE TRUTHS`
    Simulate {
        exchange: &'a str,
        truths: &'a str,
    },
    /// `statement JOURNAL NAME`
    Statement {
        journal: &'a str,
        /// The name of a bidder, or any other text.
        name: &'a str,
    },
    /// `audit FILE`
    Audit {
        file: &'a str,
    },
    /// `fair JOURNAL`
    Fair {
        journal: &'a str,
    },
    /// `gap JOURNAL`
    Gap {
        journal: &'a str,
    },
}

/// The word, where there is no other.
fn one_word(words: &[String]) -> Option<&str>
    ensures { MatchOption result
        ((word : List ℕ) → map string_bytes words.now ≡ word ∷ [] → ⊥)
        (λ word. map string_bytes words.now ≡ word.now ∷ []) }
{
    let (word, rest) = words.split_first()?;
    if rest.is_empty() {
        Some(word.as_str())
    } else {
        None
    }
}

/// The two words, where there are two.
fn two_words(words: &[String]) -> Option<(&str, &str)>
    ensures { MatchOption result
        ((one other : List ℕ) → map string_bytes words.now ≡ one ∷ other ∷ [] → ⊥)
        (λ two. map string_bytes words.now ≡ two.0.now ∷ two.1.now ∷ []) }
{
    let (one, rest) = words.split_first()?;
    let other = one_word(rest)?;
    Some((one.as_str(), other))
}

/// The number of 32 bits whose one decimal spelling is the word, where there is no other.
fn number_word(words: &[String]) -> Option<u32>
    ensures { MatchOption result
        ((number : ℕ) → number < 2 ^ 32 → map string_bytes words.now ≡ decimal number ∷ [] → ⊥)
        (λ number. map string_bytes words.now ≡ decimal number ∷ []) }
{
    let word = one_word(words)?;
    let number = natural(word.as_bytes(), 0, u64::from(u32::MAX))?;
    Some(number as u32)
}

/// The number of a settlement, at most 20, that the word is.
fn settlement_number(word: &str) -> Option<u8>
    ensures { MatchOption result
        ((number : ℕ) → number ≤ 20 → word.now ≡ decimal number → ⊥)
        (λ number. (number ≤ 20) × (word.now ≡ decimal number)) }
{
    let number = natural(word.as_bytes(), 0, 20)?;
    Some(number as u8)
}

/// The name of a journal and the number of a settlement, where the words are such.
fn replay_words(words: &[String]) -> Option<(&str, u8)>
    ensures { MatchOption result
        ((journal : List ℕ) → (number : ℕ) → number ≤ 20
        → map string_bytes words.now ≡ journal ∷ decimal number ∷ [] → ⊥)
        (λ named. (named.1 ≤ 20)
        × (map string_bytes words.now ≡ named.0.now ∷ decimal named.1 ∷ [])) }
{
    let (journal, number) = two_words(words)?;
    let number = settlement_number(number)?;
    Some((journal, number))
}

/// The names of an exchange and of at most 20 round files, where the words are such.
fn run_names(words: &[String]) -> Option<(&str, &[String])>
    ensures { MatchOption result
        ((one : List ℕ) → (others : List (List ℕ)) → length others ≤ 20 → map string_bytes words.now
        ≡ one ∷ others → ⊥)
        (λ names. (length names.1.now ≤ 20)
        × (map string_bytes words.now ≡ names.0.now ∷ map string_bytes names.1.now)) }
{
    let (exchange, rounds) = words.split_first()?;
    if rounds.len() > 20 {
        return None;
    }
    Some((exchange.as_str(), rounds))
}

/// The command that the words are; None exactly where they are none.
pub fn command_in(words: &[String]) -> Option<Command<'_>>
    ensures { let all = map string_bytes words.now in
        MatchOption result (IsNoCommand all) (λ command. IsCommand all (command_of command)) }
{
    let (word, names) = words.split_first()?;
    match word.as_str() {
        "check" => {
            let journal = one_word(names)?;
            Some(Command::Check { journal })
        }
        "best" => {
            let (exchange, prices) = two_words(names)?;
            Some(Command::Best { exchange, prices })
        }
        "regret" => {
            let exchange = one_word(names)?;
            Some(Command::Regret { exchange })
        }
        "replay" => {
            let (journal, number) = replay_words(names)?;
            Some(Command::Replay { journal, number })
        }
        "gen" => {
            let number = number_word(names)?;
            Some(Command::Gen { number })
        }
        "run" => {
            let (exchange, rounds) = run_names(names)?;
            Some(Command::Run { exchange, rounds })
        }
        "xor" => {
            let file = one_word(names)?;
            Some(Command::Xor { file })
        }
        "migrate" => {
            let journal = one_word(names)?;
            Some(Command::Migrate { journal })
        }
        "simulate" => {
            let (exchange, truths) = two_words(names)?;
            Some(Command::Simulate { exchange, truths })
        }
        "statement" => {
            let (journal, name) = two_words(names)?;
            Some(Command::Statement { journal, name })
        }
        "audit" => {
            let file = one_word(names)?;
            Some(Command::Audit { file })
        }
        "fair" => {
            let journal = one_word(names)?;
            Some(Command::Fair { journal })
        }
        "gap" => {
            let journal = one_word(names)?;
            Some(Command::Gap { journal })
        }
        _ => None,
    }
}
