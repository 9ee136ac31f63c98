use vba_values::{Bound, VType};

/// A field of a user-defined type. It has bounds only where it is an array that is declared with bounds.
#[derive(Debug, Drop)]
pub struct UdtField {
    pub of: VType,
    pub bounds: Vec<Bound>,
}

/// A user-defined type: its fields, in order.
#[derive(Debug, Drop)]
pub struct UdtType {
    pub fields: Vec<UdtField>,
}
