//! Whether an image has a footpath.

ghost use Rattle.std.specs.Prelude.{◌≡◌, ◌<◌, ◌≤◌, ℕ, length};
ghost use Rattle.timetable.specs.Legal.{At, IsLegal};
ghost use Rattle.timetable.specs.declared.network.Footpath.{Footpath};
ghost use Rattle.journeys.specs.Faults.{has_footpath};

use image_verifier::Verified;
use timetable::Footpath;

// Of the footpaths into a stop, at indices `start` to `end - 1`, the index of the first that leaves stop `from` or a
// greater one; `end` if none does.
fn first_leaving(image: &Verified, stop: u32, start: usize, end: usize, from: u32) -> usize
    requires stop { stop < image.now.timetable.stops }
    requires order { start ≤ end }
    requires within { end ≤ length image.now.timetable.footpaths }
    requires legal { IsLegal image.now.timetable }
    requires into { (k : ℕ) (f : Footpath) → At image.now.timetable.footpaths k f → start ≤ k → k < end → f.to ≡ stop }
    ensures low { start ≤ result }
    ensures high { result ≤ end }
    ensures before { (k : ℕ) (f : Footpath) → At image.now.timetable.footpaths k f → start ≤ k → k < result
        → f.from < from }
    ensures here { (k : ℕ) (f : Footpath) → At image.now.timetable.footpaths k f → result ≤ k → k < end
        → from ≤ f.from }
{
    let mut low = start;
    let mut high = end;
    'halve: while low < high {
        let middle = low + (high - low) / 2;
        if image.footpath_into(stop as usize, middle).from < from {
            low = middle + 1;
        } else {
            high = middle;
        }
    }
    low
}

/// Whether the image has the footpath, with its seconds.
pub fn has_footpath(image: &Verified, footpath: Footpath) -> bool
    ensures { result ≡ has_footpath image.now.timetable footpath }
{
    if footpath.to >= image.stops() {
        return false;
    }
    let (start, end) = image.walks_into(footpath.to as usize);
    let index = first_leaving(image, footpath.to, start, end, footpath.from);
    if index == end {
        return false;
    }
    image.footpath_into(footpath.to as usize, index) == footpath
}
