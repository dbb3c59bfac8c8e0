//! Files of a feed that can't be read: `csa build` prints which one it is.

use crate::tests::transcript::try_transcripts;
use std::test::Fail;

const UNREAD: &str = "
# A folder in the place of each file but agency.txt, in the order in which they are read.
base
run build base_feed unread.csa --first 20240115 --days 1 --zone fixed:0
remove base_feed/stops.txt
folder base_feed/stops.txt
tells csa: base_feed/stops.txt can't be read: it is a folder
prints refused 101 FileFailed stops.txt
ends 3
lacks unread.csa
remove base_feed/stops.txt
with stops.txt 1 A,A

remove base_feed/trips.txt
folder base_feed/trips.txt
tells csa: base_feed/trips.txt can't be read: it is a folder
prints refused 101 FileFailed trips.txt
ends 3
lacks unread.csa
remove base_feed/trips.txt
with trips.txt 1 R,S,T1

remove base_feed/stop_times.txt
folder base_feed/stop_times.txt
tells csa: base_feed/stop_times.txt can't be read: it is a folder
prints refused 101 FileFailed stop_times.txt
ends 3
lacks unread.csa
remove base_feed/stop_times.txt
with stop_times.txt 1 T1,08:00:00,08:00:00,A,1

remove base_feed/calendar.txt
folder base_feed/calendar.txt
tells csa: base_feed/calendar.txt can't be read: it is a folder
prints refused 101 FileFailed calendar.txt
ends 3
lacks unread.csa
remove base_feed/calendar.txt
with calendar.txt 1 S,1,1,1,1,1,1,1,20240115,20240115

folder base_feed/calendar_dates.txt
tells csa: base_feed/calendar_dates.txt can't be read: it is a folder
prints refused 101 FileFailed calendar_dates.txt
ends 3
lacks unread.csa
remove base_feed/calendar_dates.txt

folder base_feed/transfers.txt
tells csa: base_feed/transfers.txt can't be read: it is a folder
prints refused 101 FileFailed transfers.txt
ends 3
lacks unread.csa
remove base_feed/transfers.txt

folder base_feed/frequencies.txt
tells csa: base_feed/frequencies.txt can't be read: it is a folder
prints refused 101 FileFailed frequencies.txt
ends 3
lacks unread.csa
remove base_feed/frequencies.txt

# A broken link isn't taken for an absent file, whether or not a feed may lack that file.
remove base_feed/stops.txt
link base_feed/stops.txt no_such_folder/stops.txt
tells csa: base_feed/stops.txt can't be read: it is a broken link
prints refused 101 FileFailed stops.txt
ends 3
lacks unread.csa
remove base_feed/stops.txt
with stops.txt 1 A,A
remove base_feed/calendar.txt
link base_feed/calendar_dates.txt agency.txt/calendar_dates.txt
tells csa: base_feed/calendar_dates.txt can't be read: it is a broken link
prints refused 101 FileFailed calendar_dates.txt
ends 3
lacks unread.csa
remove base_feed/calendar_dates.txt
with calendar.txt 1 S,1,1,1,1,1,1,1,20240115,20240115
link base_feed/transfers.txt no_such_file
tells csa: base_feed/transfers.txt can't be read: it is a broken link
prints refused 101 FileFailed transfers.txt
ends 3
lacks unread.csa
run tables base_feed
tells csa: base_feed/transfers.txt can't be read: it is a broken link
prints refused 101 FileFailed transfers.txt
ends 3
run days base_feed
tells csa: base_feed/transfers.txt can't be read: it is a broken link
prints refused 101 FileFailed transfers.txt
ends 3
remove base_feed/transfers.txt

# Nor can a link be read that leads to itself.
run build base_feed unread.csa --first 20240115 --days 1 --zone fixed:0
link base_feed/transfers.txt transfers.txt
tells csa: base_feed/transfers.txt can't be read: its links lead in a circle
prints refused 101 FileFailed transfers.txt
ends 3
lacks unread.csa
remove base_feed/transfers.txt

# The first of two is printed.
folder base_feed/transfers.txt
folder base_feed/frequencies.txt
tells csa: base_feed/transfers.txt can't be read: it is a folder
prints refused 101 FileFailed transfers.txt
ends 3
lacks unread.csa
remove base_feed

# An image, and a folder, by a broken link.
link unread.csa no_such_file
run verify unread.csa
tells csa: unread.csa can't be read: it is a broken link
ends 3
run tables unread.csa
tells csa: unread.csa: it is a broken link
answers refused 1 MissingFile agency.txt 0
remove unread.csa
";

#[test]
fn files_that_cannot_be_read_are_printed(rt: HostRuntime) -> Result<(), Fail> {
    try_transcripts(&rt, &[UNREAD])
}
