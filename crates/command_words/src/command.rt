/// A command, with the path of its list.
#[derive(Clone, Copy, Debug, PartialEq, Eq)]
pub enum Command<'a> {
    /// Runs a project, for at most so many turns; traced or not. Where a suffix is given, each sheet is saved to its
    /// path with that suffix.
    Run {
        file: &'a str,
        turns: u64,
        trace: bool,
        save: Option<&'a str>,
    },
    /// Checks a project.
    Check {
        file: &'a str,
    },
    /// Lists the code of a project.
    Code {
        file: &'a str,
    },
}
