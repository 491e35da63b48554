//! The parts that an array and its copies share.

ghost use Rattle.std.specs.Prelude.{◌≡◌, None, IfOk};
ghost use Rattle.std.specs.Arc.{arc_value};
ghost use Rattle.layout.specs.Reading.{reading};
ghost use Rattle.types.specs.Kind.{kind_of};
ghost use Rattle.arrays.specs.Parts.{read_alone};

use colbits::{Buffer, NoMemory};
use layout::{RawArray, copies};
use std::alloc::Global;
use std::sync::Arc;
use types::DataType;

/// The parts of a lawful array, save its dictionary: the type that they have without one, the buffers, and the child of lists.
#[derive(Drop)]
pub(crate) struct Parts {
    pub(crate) ty: DataType,
    pub(crate) length: u64,
    pub(crate) buffers: Vec<Option<Buffer>>,
    pub(crate) children: Vec<RawArray>,
}

/// Parts as another array has them for a child: taken where nobody else has them, else copied.
pub(super) fn into_raw(alloc: Global, parts: Arc<Parts>) -> Result<RawArray, NoMemory>
    ensures { IfOk result (λ raw. reading raw ≡ read_alone (kind_of (arc_value parts).ty) (arc_value parts) None) }
{
    match Arc::try_unwrap(parts) {
        Ok(parts) => Ok(raw_of(parts)),
        Err(parts) => copy(alloc, &parts),
    }
}

fn raw_of(parts: Parts) -> RawArray
    ensures { reading result ≡ read_alone (kind_of parts.ty) parts None }
{
    let Parts {
        ty,
        length,
        buffers,
        children,
    } = parts;
    RawArray {
        ty,
        length,
        null_count: None,
        buffers,
        children,
        dictionary: None,
    }
}

fn copy(alloc: Global, parts: &Parts) -> Result<RawArray, NoMemory>
    ensures { IfOk result (λ raw. reading raw ≡ read_alone (kind_of parts.now.ty) parts.now None) }
{
    Ok(RawArray {
        ty: parts.ty.copy(alloc)?,
        length: parts.length,
        null_count: None,
        buffers: copies::buffers(alloc, &parts.buffers)?,
        children: copies::children(alloc, &parts.children)?,
        dictionary: None,
    })
}
