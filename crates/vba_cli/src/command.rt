ghost use Rattle.std.specs.Prelude.{◌≡◌, option_map};
ghost use Rattle.command_words.specs.View.{command_view};
ghost use Rattle.vba_cli.specs.Answer.{path_of, turns_of};
ghost use Rattle.vba_cli.specs.Command.{ends_in_bas, path_in, turns_in};
ghost use Rattle.vba_lexer.specs.Tokens.{lower};

use command_words::Command;

/// Is the file that a command names one standard module?
pub fn names_module(command: Command) -> bool
    ensures { result ≡ ends_in_bas (path_in (command_view command.entry)) }
{
    ends_in_bas(path_in(command).as_bytes())
}

/// The path of the file that a command names.
pub fn path_in<'a>(command: Command<'a>) -> &'a str
    ensures { result.now ≡ path_in (command_view command.entry) }
{
    match command {
        Command::Run { file, .. } => file,
        Command::Check { file } => file,
        Command::Code { file } => file,
    }
}

// The bound on the turns of a run.
fn turns_in(command: Command) -> u64
    ensures { result ≡ turns_in (command_view command.entry) }
{
    match command {
        Command::Run { turns, .. } => turns,
        Command::Check { .. } => 0,
        Command::Code { .. } => 0,
    }
}

/// The path that a text on `err` names.
pub fn path_of<'a>(command: Option<Command<'a>>) -> &'a str
    ensures { result.now ≡ path_of (option_map command_view command.entry) }
{
    match command {
        Some(command) => path_in(command),
        None => "",
    }
}

/// The bound on turns that a text on `err` names.
pub fn turns_of(command: Option<Command>) -> u64
    ensures { result ≡ turns_of (option_map command_view command.entry) }
{
    match command {
        Some(command) => turns_in(command),
        None => 0,
    }
}

#[tactic(auto, using(crate::proofs::SameText::same_text_sizes))]
fn ends_in_bas(name: &[u8]) -> bool
    ensures { result ≡ ends_in_bas name.now }
{
    let start = name.len().saturating_sub(4);
    match &name[start..] {
        [dot, b, a, s] => {
            lower(*dot) == b'.' && lower(*b) == b'b' && lower(*a) == b'a' && lower(*s) == b's'
        }
        _ => false,
    }
}

// A letter of ASCII in lower case, any other byte as it is.
fn lower(byte: u8) -> u8
    ensures { result ≡ lower byte }
{
    byte.to_ascii_lowercase()
}
