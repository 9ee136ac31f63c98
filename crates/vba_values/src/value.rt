use crate::object::ObjRef;
use crate::types::VType;
use currency::Currency;
use vba_base::Units;

/// The bounds of one dimension of an array.
#[derive(Clone, Copy, Debug, PartialEq, Eq)]
pub struct Bound {
    pub low: i32,
    pub high: i32,
}

/// An array: its bounds, the declared type of its elements, and its elements, with the first place running fastest.
#[cycle(value)]
#[derive(Drop)]
pub struct ArrayValue {
    pub bounds: Vec<Bound>,
    pub element: VType,
    pub items: Vec<Value>,
}

/// A value of a user-defined type: the type's place in the list of types, and its fields.
#[cycle(value)]
#[derive(Drop)]
pub struct UdtValue {
    pub udt: u32,
    pub fields: Vec<Value>,
}

/// A value.
#[cycle(value)]
#[derive(Drop)]
pub enum Value {
    Empty,
    Null,
    /// An optional argument that isn't given.
    Missing,
    Boolean(bool),
    Byte(u8),
    Integer(i16),
    Long(i32),
    LongLong(i64),
    Currency(Currency),
    Text(Units),
    Object(ObjRef),
    Array(Box<ArrayValue>),
    Udt(Box<UdtValue>),
}
