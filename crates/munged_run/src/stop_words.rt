//! The words of a command line that ask that a daemon stops.

ghost use Rattle.std.specs.Prelude.{◌≡◌, map, option_map};
ghost use Rattle.std.specs.String.{string_bytes};
ghost use Rattle.munged_run.specs.StopWords.{stop_of, stop_with};

/// The path of the option file by which the words, which do not hold the program's name, ask a
/// daemon to stop, if they do: `stop CONFIG`.
pub fn stop_of_words(words: &[String]) -> Option<&str>
    ensures { option_map (λ config. config.now) result ≡ stop_of (map string_bytes words.now) }
{
    match words {
        [name, config] => stop_of_parts(name.as_str(), config.as_str()),
        _ => None,
    }
}

/// What a command of this name asks for, if it is `stop`.
fn stop_of_parts<'a>(name: &str, config: &'a str) -> Option<&'a str>
    ensures { option_map (λ config. config.now) result ≡ stop_with name.now config.now }
{
    if name != "stop" {
        return None;
    }
    Some(config)
}
