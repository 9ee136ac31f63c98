// What each byte of a file does to the row that is being read.
ghost use Rattle.std.specs.Prelude.{◌≡◌};
ghost use Rattle.csv.specs.Machine.{step};
ghost use Rattle.csv.specs.Reading.{default_config};
ghost use Rattle.csv_book.specs.Scan.{csv_action, csv_state, without_return};

/// Where the reading of a row stands.
#[derive(Clone, Copy)]
pub enum State {
    /// Before the row, where empty lines are skipped.
    BeforeRow,
    /// Behind a comma.
    BeforeField,
    /// In a field, outside of quotes.
    InField,
    /// In a field, between quotes.
    InQuotes,
    /// Behind a quote between quotes: the last one, or the first of two.
    AfterQuote,
}

/// What a byte does.
#[derive(Clone, Copy)]
pub enum Action {
    Skip,
    Copy,
    EndField,
    EndRow,
}

/// The state behind a byte, and what the byte does.
pub fn step(state: State, byte: u8) -> (State, Action)
    ensures state { csv_state result.0 ≡ without_return (step default_config (csv_state state) byte).0 }
    ensures action { csv_action result.1 ≡ (step default_config (csv_state state) byte).1 }
{
    match (state, byte) {
        (State::InQuotes, b'"') => (State::AfterQuote, Action::Skip),
        (State::InQuotes, _) => (State::InQuotes, Action::Copy),
        (State::BeforeRow, b'\n' | b'\r') => (State::BeforeRow, Action::Skip),
        (State::BeforeRow | State::BeforeField, b'"') => (State::InQuotes, Action::Skip),
        (State::AfterQuote, b'"') => (State::InQuotes, Action::Copy),
        (_, b',') => (State::BeforeField, Action::EndField),
        (_, b'\n' | b'\r') => (State::BeforeRow, Action::EndRow),
        _ => (State::InField, Action::Copy),
    }
}
