//! Scenes on a table.

ghost use Rattle.shared.specs.Named.{IsNamed};

use crate::ends::{has_all, has_come, is_answer};
use crate::gates::Counting;
use crate::hands::{Hand, all_hands, workers_of};
use crate::scenes::{Files, Place, Soak, Step};
use crate::soaking::work_together;
use arrays::{DataType, File};
use arrow_json::read_file;
use loads::load_all;
use shared::{Naming, Opening, Publish, Reader, SharedTable, Shown, Worker, open};
use std::alloc::Global;
use std::marker::Brand;
use std::process::Abort;
use std::sync::Wait;
use std::test::Fail;
use std::thread::Threads;
use test_samples::{INT8, field};

/// Asserts that a scene goes as it must.
pub(crate) fn expect<W: Wait + Sync, T: Threads + Abort + Sync>(
    wait: &W,
    rt: &T,
    alloc: Global,
    place: Place,
) -> Result<(), Fail> {
    let stop = play(wait, rt, alloc, place)?;
    assert!(rt; stop.is_none(), "{place:?}, step {stop:?}");
    Ok(())
}

/// The first step of a scene that doesn't come out as it must: that behind the last is its end.
fn play<W: Wait + Sync, T: Threads + Sync>(
    wait: &W,
    threads: &T,
    alloc: Global,
    place: Place,
) -> Result<Option<usize>, Fail> {
    let Some(scene) = place.scene() else {
        return Ok(Some(0));
    };
    let schema = read_file(alloc, scene.file.as_bytes())?
        .schema()
        .copy(alloc)?;
    let opening = Opening::new(alloc, schema, scene.workers)?;
    play_under::<Brand, W, T>(wait, threads, alloc, opening, scene.readers, place)
}

/// The same, under the table's name.
fn play_under<N: Naming + Send + Sync, W: Wait + Sync, T: Threads + Sync>(
    wait: &W,
    threads: &T,
    alloc: Global,
    opening: Opening,
    readers: u32,
    place: Place,
) -> Result<Option<usize>, Fail>
    requires { IsNamed N.book N.fields N.calls N.rows N.columns N.workers opening }
{
    match open::<N, &W>(wait, alloc, opening, readers) {
        Ok((table, hands, eyes)) => play_on(wait, threads, alloc, table, hands, eyes, place),
        Err(_) => Ok(Some(0)),
    }
}

/// Plays a scene on its table, which is gathered in the end.
fn play_on<
    N: Naming + Send + Sync,
    P: Publish<Item = Shown<N>> + Send,
    W: Wait + Sync,
    T: Threads + Sync,
>(
    wait: &W,
    threads: &T,
    alloc: Global,
    table: SharedTable<N, P>,
    workers: Vec<Worker<N>>,
    readers: Vec<Reader<N>>,
    place: Place,
) -> Result<Option<usize>, Fail> {
    let Some(scene) = place.scene() else {
        return Ok(Some(0));
    };
    let mut workers = workers;
    let first = first_wrong(wait, threads, alloc, &table, &mut workers, scene.steps)?;
    if first.is_some() {
        return Ok(first);
    }
    let behind = scene.steps.len();
    let Some(workers) = soak(wait, threads, alloc, &table, workers, readers, scene.soak)? else {
        return Ok(Some(behind));
    };
    let Some(gathered) = table.gather(wait, workers).ok() else {
        return Ok(Some(behind));
    };
    let has_come = has_come(alloc, &*gathered.version, &scene.end)?;
    Ok(if has_come { None } else { Some(behind) })
}

/// The first step that doesn't come out as it must.
fn first_wrong<
    N: Naming + Send + Sync,
    P: Publish<Item = Shown<N>> + Send,
    W: Wait + Sync,
    T: Threads + Sync,
>(
    wait: &W,
    threads: &T,
    alloc: Global,
    table: &SharedTable<N, P>,
    workers: &mut [Worker<N>],
    steps: &[Step],
) -> Result<Option<usize>, Fail> {
    for (place, step) in steps.iter().enumerate() {
        if !comes_out(wait, threads, alloc, table, workers, step)? {
            return Ok(Some(place));
        }
    }
    Ok(None)
}

/// Whether a step comes out as it must.
fn comes_out<
    N: Naming + Send + Sync,
    P: Publish<Item = Shown<N>> + Send,
    W: Wait + Sync,
    T: Threads + Sync,
>(
    wait: &W,
    threads: &T,
    alloc: Global,
    table: &SharedTable<N, P>,
    workers: &mut [Worker<N>],
    step: &Step,
) -> Result<bool, Fail> {
    match step {
        Step::Load(files, passed, answer) => {
            let gate = Counting::new(*passed);
            let files = read_all(alloc, *files)?;
            if workers.is_empty() {
                return Ok(false);
            }
            let loaded = load_all(wait, threads, alloc, table, workers, &files, &gate);
            Ok(gate.has_let_in(*passed) && is_answer(alloc, &loaded, *answer)?)
        }
        Step::Reverse => {
            workers.reverse();
            Ok(true)
        }
        Step::Add(place, name) => match workers.get_mut(*place) {
            Some(worker) => {
                let added = field(alloc, *name, true, DataType::Int(INT8))?;
                Ok(table.add_column(wait, worker, added).is_ok())
            }
            None => Ok(false),
        },
    }
}

/// The files that are loaded.
fn read_all(alloc: Global, files: Files) -> Result<Vec<File>, Fail> {
    let mut all = Vec::new(alloc);
    match files {
        Files::Texts(texts) => {
            for text in texts {
                all.push(read_file(alloc, text.as_bytes())?)?;
            }
        }
        Files::Numbers(count, each) => {
            for place in 0..count {
                let text = numbers_from(alloc, place.wrapping_mul(1000), each)?;
                all.push(read_file(alloc, text.as_bytes())?)?;
            }
        }
    }
    Ok(all)
}

/// A file of so many batches of one number each: the first one, and those behind it.
fn numbers_from(alloc: Global, first: u32, each: u32) -> Result<String, Fail> {
    let mut text = String::from_str(
        alloc,
        r#"{"schema":{"fields":[{"name":"n","nullable":true,"type":{"name":"int","bitWidth":64,"isSigned":true}}]},"batches":["#,
    )?;
    for place in 0..each {
        if place > 0 {
            text.push_str(",")?;
        }
        text.push_str(r#"{"count":1,"columns":[{"count":1,"DATA":["#)?;
        write!(text, "{}", first.wrapping_add(place))?;
        text.push_str("]}]}")?;
    }
    text.push_str("]}")?;
    Ok(text)
}

/// The workers, behind what they do together with the readers; none, where it doesn't go right.
fn soak<
    N: Naming + Send + Sync,
    P: Publish<Item = Shown<N>> + Send,
    W: Wait + Sync,
    T: Threads + Sync,
>(
    wait: &W,
    threads: &T,
    alloc: Global,
    table: &SharedTable<N, P>,
    workers: Vec<Worker<N>>,
    readers: Vec<Reader<N>>,
    soak: Option<Soak>,
) -> Result<Option<Vec<Worker<N>>>, Fail> {
    let Some(soak) = soak else {
        return Ok(Some(workers));
    };
    let mut hands = all_hands(alloc, workers, soak.count, readers)?;
    if !work_together(wait, threads, alloc, table, &mut hands, soak) {
        return Ok(None);
    }
    for hand in hands.iter_mut() {
        if let Hand::Reads(reader) = hand {
            if !has_all(&*reader.latest()?, soak) {
                return Ok(None);
            }
        }
    }
    Ok(Some(workers_of(alloc, hands)?))
}
