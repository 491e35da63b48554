ghost use Rattle.std.specs.Prelude.{◌≡◌, IfOk, string_bytes};
ghost use Rattle.json_base.specs.JsonFaultText.{kind_name, kind_text, fault_text, layout_name, row_of};

use crate::path::{Path, Step, push_pointer};
use arrays::{LayoutFault, NoMemory};
use std::alloc::Global;
use std::error::Error;
use std::fmt;
use std::fmt::Write;

/// What is wrong with a file.
#[derive(Clone, Copy, Debug, PartialEq, Eq)]
pub enum JsonFaultKind {
    /// The bytes aren't UTF-8, aren't JSON, or are nested deeper than 127.
    NotJson,
    /// A member that must be there is not.
    MissingMember,
    /// A member of another JSON kind or outside its stated values, where no fault below fits.
    WrongMember,
    /// A type name or a width that isn't read, or a dictionary of other values than texts.
    UnsupportedType,
    /// Under a valid slot of an int column, something that is no integer of its type.
    BadNumber,
    /// An item of a list's `OFFSET` is no integer of 32 signed bits.
    BadOffset,
    /// The length of an array, or a column's count, isn't what is stated.
    CountDiffers,
    /// No dictionary has the number that a field names.
    NoDictionary,
    /// A second dictionary has the number that a field names.
    DictionaryTwice,
    /// The column is no lawful array: its texts are too long for 32-bit offsets, the offsets of its lists are below
    /// 0, fall, or lead past its child, or an index is past the dictionary.
    Layout(LayoutFault),
    /// A growth was refused. The path is empty.
    NoMemory,
}

impl JsonFaultKind {
    /// The number and the name, without the layout's fault.
    pub fn name(self) -> &'static str
        ensures { result.now ≡ kind_name self }
    {
        match self {
            JsonFaultKind::NotJson => "J1 NotJson",
            JsonFaultKind::MissingMember => "J2 MissingMember",
            JsonFaultKind::WrongMember => "J3 WrongMember",
            JsonFaultKind::UnsupportedType => "J4 UnsupportedType",
            JsonFaultKind::BadNumber => "J5 BadNumber",
            JsonFaultKind::BadOffset => "J6 BadOffset",
            JsonFaultKind::CountDiffers => "J7 CountDiffers",
            JsonFaultKind::NoDictionary => "J8 NoDictionary",
            JsonFaultKind::DictionaryTwice => "J9 DictionaryTwice",
            JsonFaultKind::Layout(_) => "J10 Layout",
            JsonFaultKind::NoMemory => "J11 NoMemory",
        }
    }
}

/// The number and the name of a layout's fault.
fn layout_name(fault: LayoutFault) -> &'static str
    ensures { result.now ≡ layout_name fault }
{
    match fault {
        LayoutFault::MissingBuffer => "V1 MissingBuffer",
        LayoutFault::ExtraBuffer => "V2 ExtraBuffer",
        LayoutFault::BufferTooShort => "V3 BufferTooShort",
        LayoutFault::OffsetNegative => "V4 OffsetNegative",
        LayoutFault::OffsetDecreases { row: _ } => "V5 OffsetDecreases",
        LayoutFault::OffsetPastEnd => "V6 OffsetPastEnd",
        LayoutFault::NullCountDiffers => "V7 NullCountDiffers",
        LayoutFault::NotUtf8 { row: _ } => "V8 NotUtf8",
        LayoutFault::IndexPastDictionary { row: _ } => "V9 IndexPastDictionary",
        LayoutFault::ChildDiffers => "V10 ChildDiffers",
        LayoutFault::TooLong => "V11 TooLong",
        LayoutFault::TooDeep => "V12 TooDeep",
        LayoutFault::NoMemory => "V13 NoMemory",
    }
}

/// The row of a layout's fault, if it has one.
fn row_of(fault: LayoutFault) -> Option<usize>
    ensures { result ≡ row_of fault }
{
    match fault {
        LayoutFault::OffsetDecreases { row } => Some(row),
        LayoutFault::NotUtf8 { row } => Some(row),
        LayoutFault::IndexPastDictionary { row } => Some(row),
        LayoutFault::MissingBuffer
        | LayoutFault::ExtraBuffer
        | LayoutFault::BufferTooShort
        | LayoutFault::OffsetNegative
        | LayoutFault::OffsetPastEnd
        | LayoutFault::NullCountDiffers
        | LayoutFault::ChildDiffers
        | LayoutFault::TooLong
        | LayoutFault::TooDeep
        | LayoutFault::NoMemory => None,
    }
}

impl fmt::Display for JsonFaultKind {
    ghost use Rattle.std.specs.Prelude.{Some};
    ghost use Rattle.json_base.specs.JsonFaultText.{kind_text};

    ghost output = { λ kind. Some (kind_text kind) };

    fn fmt<W: fmt::Write>(&self, f: &mut fmt::Formatter<W>) -> fmt::Result {
        f.write_str(self.name())?;
        let JsonFaultKind::Layout(fault) = *self else {
            return Ok(());
        };
        f.write_str(" ")?;
        f.write_str(layout_name(fault))?;
        match row_of(fault) {
            Some(row) => write!(f, " row={row}"),
            None => Ok(()),
        }
    }
}

impl Error for JsonFaultKind {}

/// What is wrong with a file, and where.
#[derive(Debug, Drop)]
pub struct JsonFault {
    pub kind: JsonFaultKind,
    pub path: Path,
}

impl JsonFault {
    ghost use Rattle.json_base.specs.FaultAt.{IsFault, no_memory, IsUnder};

    /// Want of memory.
    pub fn no_memory(alloc: Global) -> JsonFault
        ensures { result ≡ no_memory }
    {
        JsonFault {
            kind: JsonFaultKind::NoMemory,
            path: Path::root(alloc),
        }
    }

    /// The fault of this kind at this place.
    #[cold]
    pub fn at(alloc: Global, kind: JsonFaultKind, steps: &[Step]) -> JsonFault
        ensures { IsFault kind steps.now result }
    {
        match Path::from_steps(alloc, steps) {
            Ok(path) => JsonFault { kind, path },
            Err(NoMemory) => JsonFault::no_memory(alloc),
        }
    }

    /// The same fault, its place seen from where this step begins. Want of memory has no place.
    #[cold]
    pub fn under(self, alloc: Global, step: Step) -> JsonFault
        ensures { IsUnder step self result }
    {
        let JsonFault { kind, path } = self;
        if kind == JsonFaultKind::NoMemory {
            return JsonFault::no_memory(alloc);
        }
        match path.under(step) {
            Ok(path) => JsonFault { kind, path },
            Err(NoMemory) => JsonFault::no_memory(alloc),
        }
    }
}

/// The fault as it is reported: its number and name and, if its path isn't empty, the place.
pub fn fault_text(alloc: Global, fault: &JsonFault) -> Result<String, NoMemory>
    ensures { IfOk result (λ text. string_bytes text ≡ fault_text fault.now.kind fault.now.path) }
{
    let mut text = String::new(alloc);
    write!(text, "{}", fault.kind)?;
    let steps = fault.path.steps();
    if !steps.is_empty() {
        text.push_str(" at ")?;
        push_pointer(&mut text, steps)?;
    }
    Ok(text)
}
