//! Who looks at what a table holds next, while it doesn't yet.

ghost use Rattle.std.specs.Prelude.{◌≡◌, IfOk, ⊤};
ghost use Rattle.std.specs.Arc.{arc_value};
ghost use Rattle.table.specs.Change.{CanCommit, IsNext};
ghost use Rattle.table.specs.Contents.{Contents};
ghost use Rattle.table.specs.Storage.{IsConsistent, show};
ghost use Rattle.table.specs.declared.storage.Storage.{Storage};

use crate::change::Change;
use crate::storage::Storage;
use crate::version::Version;
use arrays::NoMemory;
use std::alloc::Global;
use std::sync::Arc;

/// What is made of a table as a change leaves it.
pub(crate) trait Look {
    /// What it sees.
    ghost sees: { Self → Contents → Type 0 };

    /// Makes it before the change, so that no step behind the change can fail.
    fn look(alloc: Global, storage: &Storage, change: &Change) -> Result<Self, NoMemory>
        requires can { CanCommit change.now storage.now }
        requires lawful { (h : Storage) → IsNext change.now storage.now h → IsConsistent h }
        ensures { IfOk result (λ l. (h : Storage) → IsNext change.now storage.now h → sees l (show h)) };
}

/// Nobody looks.
impl Look for () {
    ghost sees = { λ seen contents. ⊤ };

    fn look(_alloc: Global, _storage: &Storage, _change: &Change) -> Result<(), NoMemory> {
        Ok(())
    }
}

/// The version that shows the change.
impl Look for Arc<Version> {
    ghost sees = { λ version contents. arc_value version ≡ contents };

    fn look(alloc: Global, storage: &Storage, change: &Change) -> Result<Arc<Version>, NoMemory> {
        Version::of(alloc, storage.after(alloc, change)?)
    }
}

/// The same version for two who look, as a copy of an `Arc` may be refused.
impl Look for (Arc<Version>, Arc<Version>) {
    ghost sees = { λ versions contents. (arc_value versions.0 ≡ contents) × (arc_value versions.1 ≡ contents) };

    fn look(
        alloc: Global,
        storage: &Storage,
        change: &Change,
    ) -> Result<(Arc<Version>, Arc<Version>), NoMemory> {
        let version = Version::of(alloc, storage.after(alloc, change)?)?;
        Ok((version.clone()?, version))
    }
}
