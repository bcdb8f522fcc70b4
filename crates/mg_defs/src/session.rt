//! The settings of a session, and what a line of it is.

/// What a reply shows of its documents.
#[derive(Clone, Copy, Debug, PartialEq, Eq)]
pub enum Mode {
    /// A row with the number of each document.
    Docnums,
    /// Each document's bytes.
    Text,
    /// The count alone.
    Count,
}

/// How query lines are read and answered.
#[derive(Clone, Copy, Debug, PartialEq, Eq)]
pub struct Settings {
    /// Whether a query line is ranked; it is Boolean otherwise.
    pub ranked: bool,
    pub mode: Mode,
    /// The most rows or documents of a reply; all where there is none.
    pub most: Option<u32>,
}

impl Settings {
    ghost use Rattle.std.specs.Prelude.{◌≡◌};
    ghost use Rattle.mg_defs.specs.Commands.{first_settings};

    /// The settings at the start of a session: Boolean, the documents' numbers, all of them.
    pub fn start() -> Settings
        ensures { result ≡ first_settings }
    {
        Settings {
            ranked: false,
            mode: Mode::Docnums,
            most: None,
        }
    }
}

/// What a line of a session is.
#[derive(Clone, Copy, Debug, PartialEq, Eq)]
pub enum Command {
    /// No bytes but blanks and tabs: no reply.
    Skip,
    /// A query.
    Ask,
    /// The end of the session.
    Quit,
    /// A line that begins with a full stop and is no command.
    Wrong,
    /// The settings from now on.
    Set(Settings),
}

/// How the lines of a session are heard. A line that ends the session does so in both.
#[derive(Clone, Copy, Debug, PartialEq, Eq)]
pub enum Hearing {
    /// A line that begins with a full stop is a command.
    Commands,
    /// Each line is a question, one that begins with a full stop too.
    Questions,
}

impl Hearing {
    ghost use Rattle.std.specs.Prelude.{◌≡◌};
    ghost use Rattle.mg_defs.specs.Commands.{stops as stops_spec};
    ghost use Rattle.mg_defs.specs.Session.{hears};

    /// What a line is that is so as a command.
    pub fn hear(self, command: Command) -> Command
        ensures is { result ≡ hears self command }
        ensures stops { stops_spec result ≡ stops_spec command }
    {
        match self {
            Hearing::Commands => command,
            Hearing::Questions => match command {
                Command::Wrong | Command::Set(_) => Command::Ask,
                other => other,
            },
        }
    }
}
