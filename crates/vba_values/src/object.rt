/// The number of a counted object.
#[derive(Clone, Copy, Debug, PartialEq, Eq, PartialOrd, Ord)]
pub struct ObjId(pub u32);

/// What a reference to the host names. Sheets, rows and columns count from 1.
#[derive(Clone, Copy, Debug, PartialEq, Eq, PartialOrd, Ord)]
pub enum HostRef {
    Application,
    Workbook,
    Sheets,
    ErrObject,
    Sheet {
        sheet: u32,
    },
    Area {
        sheet: u32,
        top: u32,
        left: u32,
        rows: u32,
        columns: u32,
    },
    RowsOf {
        count: u32,
    },
    ColumnsOf {
        count: u32,
    },
}

/// An object reference.
#[derive(Clone, Copy, Debug, PartialEq, Eq, PartialOrd, Ord)]
pub enum ObjRef {
    Nothing,
    Heap(ObjId),
    Host(HostRef),
}
