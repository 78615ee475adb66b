//! The commands of the program: `record` and `replay`.

ghost use Rattle.std.specs.Prelude.{◌≡◌};
ghost use Rattle.canon_replay_cli.specs.Program.{replay_command_named, replay_command_of};

/// What the program is asked to do with the JSON value that it reads.
#[derive(Clone, Copy, Debug, PartialEq, Eq)]
pub enum ReplayCommand {
    /// Plays a script, and writes the recording of its calls.
    Record,

    /// Makes the calls of a recording again, and prints a line for each.
    Replay,
}

pub(crate) fn replay_command_of(words: &[String]) -> Option<ReplayCommand>
    ensures { result ≡ replay_command_of words.now }
{
    match words {
        [word] => replay_command_named(word.as_str()),
        _ => None,
    }
}

fn replay_command_named(name: &str) -> Option<ReplayCommand>
    ensures { result ≡ replay_command_named name.now }
{
    if name == "record" {
        Some(ReplayCommand::Record)
    } else if name == "replay" {
        Some(ReplayCommand::Replay)
    } else {
        None
    }
}
