use vba_base::{Name, Units};

/// A standard module or a class module, by its path.
#[derive(Drop)]
pub struct ModulePath {
    pub path: String,
    pub is_class: bool,
}

/// A sheet, by its name and the path of its file.
#[derive(Drop)]
pub struct SheetPath {
    pub name: Units,
    pub path: String,
}

/// The procedure that a run begins with.
#[derive(Drop)]
pub struct Startup {
    pub in_module: Name,
    pub procedure: Name,
}

/// What a list file says, in its order.
#[derive(Drop)]
pub struct ListFile {
    pub modules: Vec<ModulePath>,
    pub sheets: Vec<SheetPath>,
    pub startup: Startup,
}

/// What the lines read so far say.
#[derive(Drop)]
pub struct Partial {
    pub modules: Vec<ModulePath>,
    pub sheets: Vec<SheetPath>,
    pub startup: Option<Startup>,
    /// The case folds of the names of the sheets.
    pub folds: Vec<Name>,
}
