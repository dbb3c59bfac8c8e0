//! The rows of all targets, by several threads at once.

ghost use Rattle.std.specs.Prelude.{◌≡◌, ◌≢◌, ◌≤◌, ◌<◌, ℕ, List, Contains, IfErr, IfOk, IfSome, OnErr, OnOk};
ghost use Rattle.std.specs.Prelude.{length};
ghost use denote.Param.Send.{IsSync};
ghost use Rattle.std.specs.Global.{Vec};
ghost use Rattle.std.specs.Io.KnownBytes.{Appends};
ghost use Rattle.std.specs.IoError.{error_kind};
ghost use Rattle.std.specs.declared.io.ErrorKind.TheVariants.{OutOfMemory};
ghost use Rattle.image_files.specs.Watching.{HasFault};
ghost use Rattle.csv.specs.Writing.{default_writer, row_text};
ghost use Rattle.travel_times.specs.Rows.{Adds, AreWhole};
ghost use Rattle.matrix_rows.specs.Runs.{AreMade};
ghost use Rattle.matrix_rows.specs.Tables.{AreRowsBy, AreRowsOf, CanBeMade, IsRunBegun, IsTable};
ghost use Rattle.matrix_rows.specs.Tables.{IsTableBegun, IsTargetBegun, names_of};

use crate::named_table::NamedTable;
use crate::set_names::set_names;
use crate::table::TravelTable;
use crate::target::rows_to;
use crate::turns::{TargetRows, run_made, text_made};
use image_files::{Watched, write_all};
use std::alloc::{AllocError, Global};
use std::io;
use std::thread::{Threads, join_mut};
use travel_times::{Rows, put_pair_names, put_point_names};

/// How many rows a thread makes in a run, about, if each pair has one: at some 64 bytes each they take 6 MiB.
const ROWS_AT_ONCE: usize = 98_304;

/// What takes reports while a table is written.
pub trait TableReports {
    /// Reports that the rows of so many more targets were made.
    fn note_targets(&mut self, targets: usize);
}

/// Writes the table: its first row, then the rows of each set of targets, in order, whatever the number of threads. As
/// many sets are worked at at once, and nothing of an answer is kept but its rows, and those of one run, which are
/// written and given up while the next run is worked on. If that fails, a first part of the table was written.
pub fn write_table<R: Threads + Sync + AllocGlobal, W: Watched, P: TableReports>(
    rt: &R,
    table: &TravelTable<'_>,
    workers: usize,
    out: &mut W,
    reports: &mut P,
) -> io::Result<()>
    requires workers { (1 ≤ workers) × (workers ≤ 64) }
    requires can { (targets : Vec ℕ) → Contains table.now.targets.now targets → CanBeMade table.now targets.items }
    ensures written { OnOk result ((text : List ℕ) × IsTable table.now text
        × Appends (W.contents out.old) (W.contents out.new) text) }
    ensures begun { OnErr result (IsTableBegun table.now (W.contents out.old) (W.contents out.new)) }
    ensures failed { IfErr result (λ error. error_kind error ≢ OutOfMemory → HasFault (W.noted out.new)) }
{
    let names = set_names(rt.alloc(), table.image, table.names, table.sources)?;
    let named = NamedTable {
        plain: *table,
        names: &names,
    };
    write_named(rt, &named, workers, out, reports)
}

// Writes the table. If that fails, a first part of it was written.
fn write_named<R: Threads + Sync + AllocGlobal, W: Watched, P: TableReports>(
    rt: &R,
    table: &NamedTable<'_>,
    workers: usize,
    out: &mut W,
    reports: &mut P,
) -> io::Result<()>
    requires workers { (1 ≤ workers) × (workers ≤ 64) }
    requires can { (targets : Vec ℕ) → Contains table.now.plain.targets.now targets
        → CanBeMade table.now.plain targets.items }
    ensures written { OnOk result ((text : List ℕ) × IsTable table.now.plain text
        × Appends (W.contents out.old) (W.contents out.new) text) }
    ensures begun { OnErr result (IsTableBegun table.now.plain (W.contents out.old) (W.contents out.new)) }
    ensures failed { IfErr result (λ error. error_kind error ≢ OutOfMemory → HasFault (W.noted out.new)) }
{
    let names = first_row(rt.alloc(), table.plain.each)?;
    write_all(out, &names)?;
    let mut run = &table.plain.targets[..0];
    let mut made = Vec::new(rt.alloc());
    let sources = table.plain.sources.len();
    for next in table.plain.targets.chunks(targets_in_run(workers, sources)) {
        made = write_beside(rt, table, run, made, out, next, workers)?;
        run = next;
        reports.note_targets(run.len());
    }
    write_run(rt.alloc(), table, run, &made, out)?;
    out.finish()
}

// How many targets the threads have in a run together.
fn targets_in_run(workers: usize, sources: usize) -> usize
    requires { (1 ≤ workers) × (workers ≤ 64) }
    ensures { (1 ≤ result) × (result ≤ 4096) }
{
    workers * targets_at_once(sources)
}

// How many targets a thread has in a run: enough that none waits long for the others at its end, but so few that the
// rows of a run, which are in memory until it ends, take about as much however many sources there are.
fn targets_at_once(sources: usize) -> usize
    ensures { (1 ≤ result) × (result ≤ 64) }
{
    (ROWS_AT_ONCE / sources.max(1)).clamp(2, 64)
}

// Writes the rows of a run, and gives them up, while those of the next are made. If it fails, nothing was written, or
// the first of the rows.
fn write_beside<R: Threads + Sync + AllocGlobal, W: Watched>(
    rt: &R,
    table: &NamedTable<'_>,
    run: &[Vec<u32>],
    mut made: Vec<Vec<TargetRows>>,
    out: &mut W,
    next: &[Vec<u32>],
    workers: usize,
) -> io::Result<Vec<Vec<TargetRows>>>
    requires can { (targets : Vec ℕ) → Contains run.now targets → CanBeMade table.now.plain targets.items }
    requires able { (targets : Vec ℕ) → Contains next.now targets → CanBeMade table.now.plain targets.items }
    requires rows { AreMade table.now.plain run.now made.items }
    ensures made { IfOk result (λ made. AreMade table.now.plain next.now made.items) }
    ensures written { OnOk result ((text : List ℕ) × AreRowsOf table.now.plain run.now text
        × Appends (W.contents out.old) (W.contents out.new) text) }
    ensures begun { IsRunBegun table.now.plain run.now (W.contents out.old) (W.contents out.new) }
    ensures failed { IfErr result (λ error. error_kind error ≢ OutOfMemory → HasFault (W.noted out.new)) }
{
    let alloc = rt.alloc();
    let mut make = || -> Result<Vec<Vec<TargetRows>>, AllocError>
        requires { IsSync R.row
            × ((targets : Vec ℕ) → Contains next.now targets → CanBeMade table.now.plain targets.items) }
        ensures { IfOk result (λ made. AreMade table.entry.now.plain next.entry.now made.items) }
    { run_made(rt, alloc, table, next, workers.min(next.len())) };
    let mut write = || -> io::Result<()>
        requires can { (targets : Vec ℕ) → Contains run.now targets → CanBeMade table.now.plain targets.items }
        requires rows { AreMade table.now.plain run.now made.items }
        ensures written { OnOk result ((text : List ℕ) × AreRowsOf table.entry.now.plain run.entry.now text
            × Appends (W.contents out.entry.now) (W.contents out.exit.now) text) }
        ensures begun { IsRunBegun table.entry.now.plain run.entry.now (W.contents out.entry.now)
            (W.contents out.exit.now) }
        ensures failed { IfErr result (λ error. error_kind error ≢ OutOfMemory → HasFault (W.noted out.exit.now)) }
    {
        let outcome = write_run(alloc, table, run, &made, out);
        made.clear();
        outcome
    };
    let (more, outcome) = join_mut(rt, &mut make, &mut write);
    outcome?;
    Ok(more?)
}

// Writes the rows of a run's targets. If it fails, nothing was written, or the first of the rows.
fn write_run<W: Watched>(
    alloc: Global,
    table: &NamedTable<'_>,
    run: &[Vec<u32>],
    made: &[Vec<TargetRows>],
    out: &mut W,
) -> io::Result<()>
    requires can { (targets : Vec ℕ) → Contains run.now targets → CanBeMade table.now.plain targets.items }
    requires rows { AreMade table.now.plain run.now made.now }
    ensures written { OnOk result ((text : List ℕ) × AreRowsOf table.now.plain run.now text
        × Appends (W.contents out.old) (W.contents out.new) text) }
    ensures begun { IsRunBegun table.now.plain run.now (W.contents out.old) (W.contents out.new) }
    ensures failed { IfErr result (λ error. error_kind error ≢ OutOfMemory → HasFault (W.noted out.new)) }
{
    for index in 0..run.len() {
        write_target(alloc, table, &run[index], text_made(made, index), out)?;
    }
    Ok(())
}

// Writes the rows of a set of targets: these, or if there are none, those that are made now, which memory may allow
// once no other thread needs any. If it fails, nothing was written, or a first part of the rows.
fn write_target<W: Watched>(
    alloc: Global,
    table: &NamedTable<'_>,
    targets: &[u32],
    made: Option<&[u8]>,
    out: &mut W,
) -> io::Result<()>
    requires can { CanBeMade table.now.plain targets.now }
    requires rows { IfSome made (λ rows. AreRowsBy table.now.plain.criterion table.now.plain targets.now rows.now) }
    ensures written { OnOk result ((text : List ℕ)
        × AreRowsBy table.now.plain.criterion table.now.plain targets.now text
        × Appends (W.contents out.old) (W.contents out.new) text) }
    ensures begun { OnErr result (IsTargetBegun table.now.plain targets.now (W.contents out.old) (W.contents out.new)) }
    ensures failed { IfErr result (λ error. error_kind error ≢ OutOfMemory → HasFault (W.noted out.new)) }
{
    match made {
        Some(rows) => write_all(out, rows),
        None => write_anew(alloc, table, targets, out),
    }
}

// Makes the rows of a set of targets, and writes them. If that fails, nothing was written, or a first part of the rows.
fn write_anew<W: Watched>(
    alloc: Global,
    table: &NamedTable<'_>,
    targets: &[u32],
    out: &mut W,
) -> io::Result<()>
    requires { CanBeMade table.now.plain targets.now }
    ensures written { OnOk result ((text : List ℕ)
        × AreRowsBy table.now.plain.criterion table.now.plain targets.now text
        × Appends (W.contents out.old) (W.contents out.new) text) }
    ensures begun { OnErr result (IsTargetBegun table.now.plain targets.now (W.contents out.old) (W.contents out.new)) }
    ensures failed { IfErr result (λ error. error_kind error ≢ OutOfMemory → HasFault (W.noted out.new)) }
{
    let rows = rows_to(alloc, table, targets)?;
    write_all(out, &rows)
}

fn first_row(alloc: Global, each: bool) -> Result<Vec<u8>, AllocError>
    ensures { IfOk result (λ text. text.items ≡ row_text default_writer (names_of each)) }
{
    let mut rows = Rows::new(alloc);
    put_names(&mut rows, each)?;
    rows.into_text()
}

fn put_names(rows: &mut Rows, each: bool) -> Result<(), AllocError>
    requires { AreWhole rows.old }
    ensures { OnOk result (Adds rows.old rows.new (row_text default_writer (names_of each))) }
{
    if each {
        put_point_names(rows)
    } else {
        put_pair_names(rows)
    }
}
