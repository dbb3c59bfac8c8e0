//! The rows of a run of targets, by several threads that take turns.

ghost use Rattle.std.specs.Prelude.{◌≡◌, ◌<◌, ℕ, Contains, IfOk, IfSome, length, slice_get};
ghost use Rattle.std.specs.Global.{Vec};
ghost use Rattle.matrix_rows.specs.Runs.{AreMade, AreRowsIn, HasText};
ghost use Rattle.matrix_rows.specs.Tables.{CanBeMade};

use crate::named_table::NamedTable;
use crate::target::rows_to;
use std::alloc::{AllocError, Global};
use std::sync::atomic::{AtomicUsize, Ordering};
use std::thread;
use std::thread::Threads;

/// The rows of a set of targets, and its index in a run.
#[derive(Drop)]
pub struct TargetRows {
    pub index: usize,
    pub text: Vec<u8>,
}

/// The rows of a run's targets, as each of so many threads made them. A thread that runs out of memory makes no more,
/// so some targets may be left out.
pub fn run_made<R: Threads + Sync>(
    rt: &R,
    alloc: Global,
    table: &NamedTable<'_>,
    run: &[Vec<u32>],
    threads: usize,
) -> Result<Vec<Vec<TargetRows>>, AllocError>
    requires { (set : Vec ℕ) → Contains run.now set → CanBeMade table.now.plain set.items }
    ensures { IfOk result (λ made. AreMade table.now.plain run.now made.items) }
{
    let counter = AtomicUsize::new(0);
    let next = &counter;
    let make = move |_thread: usize| -> Vec<TargetRows>
        requires { (set : Vec ℕ) → Contains run.now set → CanBeMade table.now.plain set.items }
        ensures { AreRowsIn table.entry.now.plain run.entry.now result.items }
    { rows_in_turns(alloc, table, run, next) };
    let made = thread::map_indices(rt, alloc, threads, &make)?;
    Ok(made)
}

// Makes the rows of the next of a run's targets until each is taken, or memory runs out.
fn rows_in_turns(
    alloc: Global,
    table: &NamedTable<'_>,
    run: &[Vec<u32>],
    next: &AtomicUsize,
) -> Vec<TargetRows>
    requires { (set : Vec ℕ) → Contains run.now set → CanBeMade table.now.plain set.items }
    ensures { AreRowsIn table.now.plain run.now result.items }
{
    let mut made = Vec::new(alloc);
    for _ in 0..run.len() {
        let index = next.fetch_add(1, Ordering::SeqCst);
        if index >= run.len() {
            return made;
        }
        if put_rows(&mut made, alloc, table, run, index).is_err() {
            return made;
        }
    }
    made
}

// Adds the rows of a run's target.
fn put_rows(
    made: &mut Vec<TargetRows>,
    alloc: Global,
    table: &NamedTable<'_>,
    run: &[Vec<u32>],
    index: usize,
) -> Result<(), AllocError>
    requires index { index < length run.now }
    requires can { (set : Vec ℕ) → Contains run.now set → CanBeMade table.now.plain set.items }
    ensures { AreRowsIn table.now.plain run.now made.old.items → AreRowsIn table.now.plain run.now made.new.items }
{
    let text = rows_to(alloc, table, &run[index])?;
    made.push(TargetRows { index, text })?;
    Ok(())
}

/// The rows of a run's target, if a thread made them.
pub fn text_made(made: &[Vec<TargetRows>], index: usize) -> Option<&[u8]>
    ensures { IfSome result (λ text. (k : ℕ) × (part : Vec TargetRows) × (slice_get made.now k ≡ Some part)
        × HasText part.items index text.now) }
{
    for part in made {
        if let Some(text) = text_in(part, index) {
            return Some(text);
        }
    }
    None
}

// The rows of a run's target, if this thread made them.
fn text_in(part: &[TargetRows], index: usize) -> Option<&[u8]>
    ensures { IfSome result (λ text. HasText part.now index text.now) }
{
    for rows in part {
        if rows.index == index {
            return Some(&rows.text);
        }
    }
    None
}
