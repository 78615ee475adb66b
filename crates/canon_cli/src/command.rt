//! The commands that read a JSON value: `run`, `text` and `layout`.

ghost use Rattle.std.specs.Prelude.{◌≡◌};
ghost use Rattle.canon_cli.specs.Program.{command_named, command_of};

/// What the program is asked to do with the JSON value that it reads.
#[derive(Clone, Copy, Debug, PartialEq, Eq)]
pub enum Command {
    /// Plays a script, and prints its transcript.
    Run,

    /// Plays conversions of texts, and prints a line for each.
    Text,

    /// Builds a table of types, and prints how each lies in memory and in words.
    Layout,
}

pub(crate) fn command_of(words: &[String]) -> Option<Command>
    ensures { result ≡ command_of words.now }
{
    match words {
        [word] => command_named(word.as_str()),
        _ => None,
    }
}

fn command_named(name: &str) -> Option<Command>
    ensures { result ≡ command_named name.now }
{
    if name == "run" {
        Some(Command::Run)
    } else if name == "text" {
        Some(Command::Text)
    } else if name == "layout" {
        Some(Command::Layout)
    } else {
        None
    }
}
