//! The eight integer types.

use arrays::{IntType, Width};

pub const INT8: IntType = IntType {
    bits: Width::W8,
    signed: true,
};

pub const INT16: IntType = IntType {
    bits: Width::W16,
    signed: true,
};

pub const INT32: IntType = IntType {
    bits: Width::W32,
    signed: true,
};

pub const INT64: IntType = IntType {
    bits: Width::W64,
    signed: true,
};

pub const UINT8: IntType = IntType {
    bits: Width::W8,
    signed: false,
};

pub const UINT16: IntType = IntType {
    bits: Width::W16,
    signed: false,
};

pub const UINT32: IntType = IntType {
    bits: Width::W32,
    signed: false,
};

pub const UINT64: IntType = IntType {
    bits: Width::W64,
    signed: false,
};
