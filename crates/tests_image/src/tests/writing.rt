//! Images that are written.

ghost use Rattle.std.specs.Prelude.{◌≡◌, ◌≤◌, length, IfOk};
ghost use Rattle.timetable.specs.Legal.{IsLegal};
ghost use Rattle.timetable.specs.Limits.{IsWithinLimits};
ghost use Rattle.image_layout.specs.Spelling.{text};

use image_layout::{sample_names, sample_timetable, second_sample_words};
use image_writer::*;
use std::alloc::{AllocError, Global};
use timetable::{Footpath, Names, Timetable};

/// The change time at a stop.
fn change(stop: u32, secs: u32) -> Footpath
    ensures { result ≡ record { from = stop; to = stop; secs = secs } }
{
    Footpath {
        from: stop,
        to: stop,
        secs,
    }
}

/// Writes the sample, and returns its words.
fn written_sample(alloc: Global) -> Result<Vec<u32>, AllocError> {
    let timetable = sample_timetable(alloc)?;
    write(alloc, &timetable, &sample_names(alloc)?)
}

#[test]
fn sample_is_written(rt: HostRuntime) -> Result<(), AllocError> {
    let words = written_sample(rt.alloc())?;
    assert!(rt; words.as_slice() == second_sample_words().as_slice());
    Ok(())
}

/// A timetable without stops.
fn empty(alloc: Global) -> Timetable
    ensures legal { IsLegal result }
    ensures limits { IsWithinLimits result }
    ensures counts { (result.stops ≡ 0) × (result.trips ≡ 0) }
{
    Timetable {
        stops: 0,
        trips: 0,
        connections: Vec::new(alloc),
        footpaths: Vec::new(alloc),
    }
}

/// The names of no stops and no trips.
fn no_names(alloc: Global) -> Names
    ensures { (length result.stops ≡ 0) × (length result.trips ≡ 0) × (length (text result) ≡ 0) }
{
    Names {
        base: 0,
        stops: Vec::new(alloc),
        trips: Vec::new(alloc),
    }
}

#[test]
fn empty_timetable_is_written(rt: HostRuntime) -> Result<(), AllocError> {
    let words = write(rt.alloc(), &empty(rt.alloc()), &no_names(rt.alloc()))?;
    assert!(rt; words.as_slice() == [0x50415343, 2, 0, 0, 0, 0, 0, 0, 0, 0, 0].as_slice());
    Ok(())
}

/// A timetable of one stop, where a change takes a minute.
fn one_stop(alloc: Global) -> Result<Timetable, AllocError>
    ensures legal { IfOk result (λ t. IsLegal t) }
    ensures limits { IfOk result (λ t. IsWithinLimits t) }
    ensures counts { IfOk result (λ t. (t.stops ≡ 1) × (t.trips ≡ 0)) }
{
    let footpaths = vec![in alloc; change(0, 60)]?;
    Ok(Timetable {
        stops: 1,
        trips: 0,
        connections: Vec::new(alloc),
        footpaths,
    })
}

/// The name of its stop, and a base before 1970.
fn one_name(alloc: Global, name: &str) -> Result<Names, AllocError>
    requires { length name.now ≤ 5 }
    ensures { IfOk result (λ n. (length n.stops ≡ 1) × (length n.trips ≡ 0) × (length (text n) ≤ 5)) }
{
    let name = String::from_str(alloc, name)?;
    let stops = vec![in alloc; name]?;
    Ok(Names {
        base: -86400,
        stops,
        trips: Vec::new(alloc),
    })
}

/// The image of one stop under a name.
fn written(alloc: Global, name: &str) -> Result<Vec<u32>, AllocError>
    requires { length name.now ≤ 5 }
{
    let timetable = one_stop(alloc)?;
    write(alloc, &timetable, &one_name(alloc, name)?)
}

/// The words of such an image whose name has so many bytes, in these words.
fn wanted(alloc: Global, bytes: u32, text: &[u32]) -> Result<Vec<u32>, AllocError> {
    let front = [
        0x50415343, 2, 1, 0, 0, 1, bytes, 4294880896, 4294967295, 0, 1, 0, 60, 0, bytes,
    ];
    let mut words = front.to_vec(alloc)?;
    words.extend_from_slice(text)?;
    Ok(words)
}

/// Names of zero to five bytes, with their words.
const NAMES: [(&str, &[u32]); 6] = [
    ("", &[]),
    ("A", &[0x41]),
    ("AB", &[0x4241]),
    ("ABC", &[0x434241]),
    ("ABCD", &[0x44434241]),
    ("ABCDE", &[0x44434241, 0x45]),
];

#[test]
fn names_fill_words(rt: HostRuntime) -> Result<(), AllocError> {
    for (name, text) in NAMES.iter() {
        assert!(rt; name.len() <= 5, "a longer name");
        let words = written(rt.alloc(), name)?;
        assert!(rt;
            words == wanted(rt.alloc(), name.len() as u32, text)?,
            "{name}"
        );
    }
    Ok(())
}

/// Whichever growth is refused, the error is that memory ran out; otherwise all words are there. A refused growth ends
/// the test with `AllocError`.
#[test]
fn refused_growth_is_reported(rt: HostRuntime) -> Result<(), AllocError> {
    assert!(rt; written(rt.alloc(), "Wels")?.len() == 16);
    Ok(())
}
