use thiserror::Error;

/// Why the parts of an array are no Arrow array. Rows are those of the array where the fault stands,
/// which may be a child or a dictionary.
#[derive(Clone, Copy, Debug, PartialEq, Eq, Error)]
pub enum LayoutFault {
    /// A position of the layout is missing, or holds no buffer and isn't the validity.
    #[error("V1 MissingBuffer")]
    MissingBuffer,
    /// There are more positions than the layout names.
    #[error("V2 ExtraBuffer")]
    ExtraBuffer,
    /// A buffer holds fewer bytes than the length needs.
    #[error("V3 BufferTooShort")]
    BufferTooShort,
    /// Some offset is below 0.
    #[error("V4 OffsetNegative")]
    OffsetNegative,
    /// The offset after the row's is below it; the least such row.
    #[error("V5 OffsetDecreases row={row}")]
    OffsetDecreases { row: usize },
    /// The last offset is past the bytes, or past the child's length.
    #[error("V6 OffsetPastEnd")]
    OffsetPastEnd,
    /// A null count is stated and isn't the number of 0 bits within the length.
    #[error("V7 NullCountDiffers")]
    NullCountDiffers,
    /// A valid slot's bytes aren't UTF-8; the least such row.
    #[error("V8 NotUtf8 row={row}")]
    NotUtf8 { row: usize },
    /// A valid index is negative, or not below the dictionary's length; the least such row.
    #[error("V9 IndexPastDictionary row={row}")]
    IndexPastDictionary { row: usize },
    /// A list hasn't exactly one child of its item's type, or its item is a dictionary; another type has
    /// children; a dictionary-encoded array has no dictionary of texts; another type has a dictionary.
    #[error("V10 ChildDiffers")]
    ChildDiffers,
    /// The length is over 2^31 - 1.
    #[error("V11 TooLong")]
    TooLong,
    /// The type has more than 8 lists in one another.
    #[error("V12 TooDeep")]
    TooDeep,
    /// A growth was refused.
    #[error("V13 NoMemory")]
    NoMemory,
}
