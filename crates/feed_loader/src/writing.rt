//! Writes a timetable and its names as an image, and verifies the image.

ghost use Rattle.std.specs.Prelude.{◌≡◌, IfOk, IfErr};
ghost use Rattle.timetable.specs.NamesValue.{NamesValue};
ghost use Rattle.timetable.specs.TimetableValue.{TimetableValue};
ghost use Rattle.image_layout.specs.Fields.{layout_of};
ghost use Rattle.image_layout.specs.declared.layout.TheConstants.{LAYOUT};
ghost use Rattle.image_layout.specs.Image.{IsImage};
ghost use Rattle.image_verifier.specs.declared.fault.ImageFault.TheVariants as images;
ghost use Rattle.image_writer.specs.Writable.{IsWritable};
ghost use Rattle.gtfs_rows.specs.declared.fault.Table.TheVariants as tables;
ghost use Rattle.feed_loader.specs.Faults.{out_of_memory as out_of_memory_of};
ghost use Rattle.feed_loader.specs.Refused.{HasNoMemory};
ghost use Rattle.feed_loader.specs.declared.fault.LoadFault.TheVariants as faults;

use crate::fault::{LoadFault, out_of_memory};
use gtfs_tables::Table;
use image_layout::laws::one_timetable;
use image_verifier::{Verified, verify};
use image_writer::write;
use std::alloc::Global;
use timetable::{Names, Timetable};

// Returns the words of the image. If there is no memory for them, `trips.txt` is named.
fn words_of(alloc: Global, timetable: &Timetable, names: &Names) -> Result<Vec<u32>, LoadFault>
    requires { IsWritable timetable.now names.now }
    ensures image { IfOk result (λ words. IsImage words.items timetable.now names.now) }
    ensures layout { IfOk result (λ words. layout_of words.items ≡ LAYOUT) }
    ensures err { IfErr result (λ fault. fault ≡ out_of_memory_of tables.Trips) }
{
    match write(alloc, timetable, names) {
        Ok(words) => Ok(words),
        Err(_) => Err(out_of_memory(Table::Trips)),
    }
}

// Verifies words. If they are an image, the only fault is that there is no memory to verify it.
fn verified(alloc: Global, words: Vec<u32>) -> Result<Verified, LoadFault>
    ensures image { IfOk result (λ image. IsImage words.items image.timetable image.names) }
    ensures layout { IfOk result (λ image. image.layout ≡ layout_of words.items) }
    ensures err { (t : TimetableValue) (n : NamesValue) → IsImage words.items t n
        → IfErr result (λ fault. fault ≡ faults.Image images.OutOfMemory) }
{
    match verify(alloc, words) {
        Ok(image) => Ok(image),
        Err((_words, fault)) => Err(LoadFault::Image(fault)),
    }
}

/// Writes a timetable and its names as an image, in the layout that is written, and verifies it. The image has no
/// fault, so the only error is that memory ran out.
pub fn written(alloc: Global, timetable: &Timetable, names: &Names) -> Result<Verified, LoadFault>
    requires { IsWritable timetable.now names.now }
    ensures layout { IfOk result (λ image. image.layout ≡ LAYOUT) }
    ensures timetable { IfOk result (λ image. image.timetable ≡ timetable.now) }
    ensures names { IfOk result (λ image. image.names ≡ names.now) }
    ensures err { IfErr result (HasNoMemory timetable.now names.now) }
{
    one_timetable();
    match words_of(alloc, timetable, names) {
        Ok(words) => verified(alloc, words),
        Err(fault) => Err(fault),
    }
}
