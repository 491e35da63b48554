//! Where bytes come from and go to, in pieces and with failures.
ghost use Rattle.std.specs.Prelude.{◌≡◌, ◌^◌, ◌-◌, ◌<◌, IfOk};

use super::{assert_case, source};
use arrowtab::memory::{MemorySink, MemorySource, Plan};
use arrowtab::{SourceFault, read_whole, write_whole};
use std::alloc::{AllocError, Global};

/// Whether a source gives these bytes, and then its end.
fn gives(alloc: Global, source: &mut MemorySource, wanted: &[u8]) -> bool
    requires { source.old.failures < 2 ^ 64 - 1 }
{
    match read_whole(alloc, source) {
        Ok(bytes) => bytes.as_slice() == wanted,
        Err(_) => false,
    }
}

/// Ten bytes, which come three at a time, and the read of this number fails.
fn digits(alloc: Global, call: u64) -> Result<MemorySource, AllocError>
    ensures { IfOk result (λ s. s.failures ≡ 0) }
{
    let source = source(alloc, "0123456789")?;
    Ok(source.in_pieces(3).failing(Plan::At(call)))
}

/// Ten bytes in pieces of three come in four reads, and a fifth finds the end: the read that fails, and what it leaves.
static READS: [(u64, &str); 5] = [
    (0, "0123456789"),
    (1, "3456789"),
    (2, "6789"),
    (3, "9"),
    (4, ""),
];

#[test]
fn tells_each_failed_read(rt: HostRuntime) {
    for (call, left) in &READS {
        let is_right = fails_before(rt.alloc(), *call, left.as_bytes());
        assert_case(&rt, is_right, &["a read fails"], *left);
    }
    assert!(rt; gives_all_digits(rt.alloc()));
}

/// Whether the failure of this read is reported, with these bytes left, which are then given.
fn fails_before(alloc: Global, call: u64, left: &[u8]) -> bool {
    let Ok(mut source) = digits(alloc, call) else {
        return false;
    };
    let fault = read_whole(alloc, &mut source).err();
    fault == Some(SourceFault::ReadFailed)
        && (source.remaining(), source.failures()) == (left, 1)
        && gives(alloc, &mut source, left)
}

/// Whether a failure that was to come after the last read doesn't come.
fn gives_all_digits(alloc: Global) -> bool {
    match digits(alloc, 5) {
        Ok(mut source) => gives(alloc, &mut source, b"0123456789"),
        Err(_) => false,
    }
}

/// Five bytes, two a write, are three writes: the write that is to fail, and what is taken.
static WRITES: [(u64, &str); 4] = [(0, ""), (1, "01"), (2, "0123"), (3, "01234")];

#[test]
fn tells_each_failed_write(rt: HostRuntime) {
    for (call, taken) in &WRITES {
        let is_right = fails_behind(rt.alloc(), *call, taken.as_bytes());
        assert_case(&rt, is_right, &["a write fails"], *taken);
    }
}

/// Whether the failure of this write is reported, behind these bytes.
fn fails_behind(alloc: Global, call: u64, taken: &[u8]) -> bool {
    let mut sink = MemorySink::new(alloc).in_pieces(2).failing(Plan::At(call));
    let failed = write_whole(&mut sink, b"01234").is_err();
    (failed, sink.failures(), sink.taken()) == (call < 3, u64::from(failed), taken)
}
