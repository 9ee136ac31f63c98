ghost use Rattle.std.specs.Prelude.{◌≡◌, ◌≤◌, length};
ghost use Rattle.list_file.specs.Files.{file_limit};

/// The bytes of a file, at most 67108864.
#[derive(Drop)]
pub struct FileBytes {
    pub bytes: Vec<u8>,
    ghost within: { length bytes.items ≤ file_limit },
}

/// The bytes of the file of a standard module or a class module, at most 67108864.
#[derive(Drop)]
pub struct ModuleBytes {
    pub bytes: Vec<u8>,
    pub is_class: bool,
    ghost within: { length bytes.items ≤ file_limit },
}

impl FileBytes {
    /// The same bytes, as those of the file of a standard module or a class module.
    pub fn of_module(self, is_class: bool) -> ModuleBytes
        ensures bytes { result.bytes ≡ self.bytes }
        ensures kind { result.is_class ≡ is_class }
    {
        let FileBytes { bytes } = self;
        ModuleBytes { bytes, is_class }
    }
}
