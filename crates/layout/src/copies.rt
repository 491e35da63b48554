//! Copies of the parts of an array, in memory of their own.

ghost use Rattle.std.specs.Prelude.{◌≡◌, map, option_map, IfOk};
ghost use Rattle.layout.specs.Reading.{reading};

use crate::raw::RawArray;
use colbits::{Buffer, NoMemory};
use std::alloc::Global;

/// A copy of a buffer, none where there is none.
fn buffer(alloc: Global, buffer: &Option<Buffer>) -> Result<Option<Buffer>, NoMemory>
    ensures { IfOk result (λ b. b ≡ buffer.now) }
{
    match buffer {
        Some(buffer) => Ok(Some(Buffer::from_bytes(alloc, buffer.bytes())?)),
        None => Ok(None),
    }
}

/// A copy of each buffer.
pub fn buffers(alloc: Global, buffers: &[Option<Buffer>]) -> Result<Vec<Option<Buffer>>, NoMemory>
    ensures { IfOk result (λ v. v.items ≡ buffers.now) }
{
    let mut copied = Vec::with_capacity(alloc, buffers.len())?;
    for position in buffers {
        copied.push(buffer(alloc, position)?)?;
    }
    Ok(copied)
}

impl RawArray {
    /// A copy of all parts, those of children and of a dictionary too.
    #[cycle(raw_copy)]
    pub fn copy(&self, alloc: Global) -> Result<RawArray, NoMemory>
        ensures { IfOk result (λ r. reading r ≡ reading self.now) }
    {
        Ok(RawArray {
            ty: self.ty.copy(alloc)?,
            length: self.length,
            null_count: self.null_count,
            buffers: buffers(alloc, &self.buffers)?,
            children: children(alloc, &self.children)?,
            dictionary: dictionary(alloc, &self.dictionary)?,
        })
    }
}

/// A copy of each child.
#[cycle(raw_copy)]
pub fn children(alloc: Global, children: &[RawArray]) -> Result<Vec<RawArray>, NoMemory>
    ensures { IfOk result (λ v. map reading v.items ≡ map reading children.now) }
{
    let mut copied = Vec::with_capacity(alloc, children.len())?;
    for child in children {
        copied.push(child.copy(alloc)?)?;
    }
    Ok(copied)
}

/// A copy of the dictionary, none where there is none.
#[cycle(raw_copy)]
fn dictionary(
    alloc: Global,
    dictionary: &Option<Box<RawArray>>,
) -> Result<Option<Box<RawArray>>, NoMemory>
    ensures { IfOk result (λ d. option_map (λ b. reading b.value) d
        ≡ option_map (λ b. reading b.value) dictionary.now) }
{
    match dictionary {
        Some(entries) => {
            let entries = entries.copy(alloc)?;
            Ok(Some(Box::new(alloc, entries)?))
        }
        None => Ok(None),
    }
}
