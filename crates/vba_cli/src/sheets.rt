use list_file::SheetPath;

/// The sheets of a list, with the number of the first one's file, and how many bytes the files before it have together.
#[derive(Clone, Copy)]
pub struct ListedSheets<'a> {
    pub sheets: &'a [SheetPath],
    pub number: u32,
    pub taken: u64,
}

/// How a run is asked for: its bound on turns, whether it is traced, and the suffix with which its sheets are saved, if
/// they are.
#[derive(Clone, Copy)]
pub struct RunWords<'a> {
    pub turns: u64,
    pub trace: bool,
    pub save: Option<&'a str>,
}
