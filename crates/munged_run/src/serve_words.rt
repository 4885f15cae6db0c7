//! The words of a command line that ask that a daemon serves.

ghost use Rattle.std.specs.Prelude.{◌≡◌, map, option_map};
ghost use Rattle.std.specs.String.{string_bytes};
ghost use Rattle.munged_run.specs.ServeWords.{serve_of, serve_with};

/// The path of the option file by which the words, which do not hold the program's name, ask a
/// daemon to serve, if they do: `serve CONFIG`.
pub fn serve_of_words(words: &[String]) -> Option<&str>
    ensures { option_map (λ config. config.now) result ≡ serve_of (map string_bytes words.now) }
{
    match words {
        [name, config] => serve_of_parts(name.as_str(), config.as_str()),
        _ => None,
    }
}

/// What a command of this name asks for, if it is `serve`.
fn serve_of_parts<'a>(name: &str, config: &'a str) -> Option<&'a str>
    ensures { option_map (λ config. config.now) result ≡ serve_with name.now config.now }
{
    if name != "serve" {
        return None;
    }
    Some(config)
}
