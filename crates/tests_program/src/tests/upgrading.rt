//! `csa upgrade`: what is written, and what stays unchanged.

use crate::tests::transcript::try_transcripts;
use std::test::Fail;

const UPGRADES: &str = "
# An image of the first layout is written in the second; that one, upgraded in its place, stays as it is.
sample
run upgrade - new.csa
answers ok stops 3 trips 2 connections 3 footpaths 3
sample 2
holds new.csa
lacks new.csa.part
run upgrade new.csa new.csa
answers ok stops 3 trips 2 connections 3 footpaths 3
holds new.csa
lacks new.csa.part
run verify new.csa
answers ok stops 3 trips 2 connections 3 footpaths 3
remove new.csa

# An image that is written in two pieces, the second of which is short, has both.
name 65540
run upgrade - new.csa
answers ok stops 1 trips 0 connections 0 footpaths 1
holds new.csa
run verify new.csa
answers ok stops 1 trips 0 connections 0 footpaths 1
remove new.csa

# What is refused leaves the file as it was, and so does an image that can't be read.
image 7
saves kept.csa
sample
cut 4
run upgrade - kept.csa
answers refused 63 BadLength
image 7
holds kept.csa
lacks kept.csa.part
run upgrade none.csa kept.csa
complains 3
holds kept.csa
remove kept.csa

# A file that can't be written, a folder in its place, and none.
sample
run upgrade - no_such_folder/new.csa
complains 3
folder folder.csa
run upgrade - folder.csa
complains 3
remove folder.csa
run upgrade -
complains 64
";

#[test]
fn images_are_upgraded(rt: HostRuntime) -> Result<(), Fail> {
    try_transcripts(&rt, &[UPGRADES])
}
