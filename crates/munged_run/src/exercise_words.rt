//! The words of a command line that ask for a run of a generated load.

ghost use Rattle.std.specs.Prelude.{◌≡◌, ◌≤◌, IfSome, map};
ghost use Rattle.std.specs.String.{string_bytes};
ghost use Rattle.munged_run.specs.ExerciseWords.{exercise_of, exercise_with, largest_number, number_within};

use crate::command::is_number;

/// The most credentials of a load.
const MOST_CREDENTIALS: u32 = 50_000;

/// The most workers.
const MOST_WORKERS: u32 = 64;

/// A run of a generated load that was asked for.
#[derive(Clone, Copy, Debug, PartialEq, Eq)]
pub struct AskedExercise {
    /// How many credentials the load has, 1 to 50,000.
    pub credentials: u32,
    /// The number that the load is made from.
    pub number: u64,
    /// How many workers serve it, 1 to 64.
    pub workers: u32,
}

/// What the words ask for, which do not hold the program's name: `exercise N NUMBER WORKERS`.
pub fn exercise_of_words(words: &[String]) -> Option<AskedExercise>
    ensures value { result ≡ exercise_of (map string_bytes words.now) }
    ensures credentials { IfSome result (λ asked.
        (1 ≤ asked.credentials) × (asked.credentials ≤ 50000)) }
    ensures workers { IfSome result (λ asked. (1 ≤ asked.workers) × (asked.workers ≤ 64)) }
{
    match words {
        [name, credentials, number, workers] => exercise_of_parts(
            name.as_str(),
            credentials.as_str(),
            number.as_str(),
            workers.as_str(),
        ),
        _ => None,
    }
}

/// What a command of this name asks for, if it is `exercise`.
fn exercise_of_parts(
    name: &str,
    credentials: &str,
    number: &str,
    workers: &str,
) -> Option<AskedExercise>
    ensures value { result ≡ exercise_with name.now credentials.now number.now workers.now }
    ensures credentials { IfSome result (λ asked.
        (1 ≤ asked.credentials) × (asked.credentials ≤ 50000)) }
    ensures workers { IfSome result (λ asked. (1 ≤ asked.workers) × (asked.workers ≤ 64)) }
{
    if name != "exercise" {
        return None;
    }
    Some(AskedExercise {
        credentials: count_of_word(credentials, MOST_CREDENTIALS)?,
        number: number_of_word(number)?,
        workers: count_of_word(workers, MOST_WORKERS)?,
    })
}

/// How many a word asks for, from 1 up to so many: one or more ASCII digits, at most 20. Zeros may
/// lead.
fn count_of_word(word: &str, most: u32) -> Option<u32>
    ensures value { result ≡ number_within 1 most word.now }
    ensures within { IfSome result (λ count. (1 ≤ count) × (count ≤ most)) }
{
    if !is_number(word) {
        return None;
    }
    let Ok(count) = word.parse::<u32>() else {
        return None;
    };
    if count < 1 || count > most {
        return None;
    }
    Some(count)
}

/// The number below 2^64 that a word spells: one or more ASCII digits, at most 20. Zeros may lead.
fn number_of_word(word: &str) -> Option<u64>
    ensures { result ≡ number_within 0 largest_number word.now }
{
    if !is_number(word) {
        return None;
    }
    let Ok(number) = word.parse::<u64>() else {
        return None;
    };
    Some(number)
}
