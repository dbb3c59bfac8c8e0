//! Command lines that ask for nothing, or for help.

use crate::tests::transcript::try_transcripts;
use std::test::Fail;

const COMMAND_LINES: &str = "
# Words that are missing, unknown or too many.
run
complains 64
run verify
complains 64
run verify - more
complains 64
run fly -
complains 64

# A misspelled option: a similar one, and the command whose help says more.
run --verson
tells error: unexpected argument '--verson' found
tells 
tells   tip: a similar argument exists: '--version'
tells 
tells Usage: csa <COMMAND>
tells 
tells For more information, try 'csa --help'.
ends 64
run build no_such_feed none.csa --frist 20240115 --days 1 --zone fixed:0
tells error: unexpected argument '--frist' found
tells 
tells   tip: a similar argument exists: '--first'
tells 
tells Usage: csa build --first <DAY> --days <N> --zone <ZONE> <FOLDER> <OUT>
tells 
tells For more information, try 'csa build --help'.
ends 64

# A value that was forgotten, or begins with a hyphen; an option with one hyphen; a journey without quotes.
run profile - --from --to C --after 07:00:00 --until 09:00:00 --by 10:00:00 --criterion arrival
tells error: unexpected argument 'C' found
tells 
tells   tip: '--to' was read as the value of '--from', which may be missing
tells 
tells Usage: csa profile [OPTIONS] --from <STOP_ID> --to <STOP_ID> --after <CLOCK> --until <CLOCK> --by <CLOCK> \
--criterion <NAME> <IMAGE>
tells 
tells For more information, try 'csa profile --help'.
ends 64
run profile - --from A --to C --after 07:00:00 --until 09:00:00 --by 10:00:00 --criterion arrival --picture -p.svg
tells error: unexpected argument '-p' found
tells 
tells   tip: a value that begins with a hyphen follows '=': '--picture=-p.svg'
tells 
tells Usage: csa profile [OPTIONS] --from <STOP_ID> --to <STOP_ID> --after <CLOCK> --until <CLOCK> --by <CLOCK> \
--criterion <NAME> <IMAGE>
tells 
tells For more information, try 'csa profile --help'.
ends 64
run profile - --from A -to C --after 07:00:00 --until 09:00:00 --by 10:00:00 --criterion arrival
tells error: unexpected argument '-t' found
tells 
tells   tip: an option has two hyphens: '--to'
tells 
tells Usage: csa profile [OPTIONS] --from <STOP_ID> --to <STOP_ID> --after <CLOCK> --until <CLOCK> --by <CLOCK> \
--criterion <NAME> <IMAGE>
tells 
tells For more information, try 'csa profile --help'.
ends 64
run journey - ride 0 1 --from A --to C --after 07:00:00 --until 09:00:00 --by 10:00:00
tells error: unexpected argument '0' found
tells 
tells   tip: a journey is one word, in quotes: 'ride 0 1'
tells 
tells Usage: csa journey --from <STOP_ID> --to <STOP_ID> --after <CLOCK> --until <CLOCK> --by <CLOCK> <IMAGE> <TEXT>
tells 
tells For more information, try 'csa journey --help'.
ends 64

# A misspelled command, also as what help is asked about: a similar one.
run serv
tells error: unrecognized subcommand 'serv'
tells 
tells   tip: a similar subcommand exists: 'serve'
tells 
tells Usage: csa <COMMAND>
tells 
tells For more information, try 'csa --help'.
ends 64
run help serv
tells error: unrecognized subcommand 'serv'
tells 
tells   tip: a similar subcommand exists: 'serve'
tells 
tells Usage: csa <COMMAND>
tells 
tells For more information, try 'csa --help'.
ends 64
run help nosuch
complains 64

# Files that there aren't.
run verify no/such/file
tells csa: no/such/file can't be read: no such file or folder
ends 3
run verify ''
tells csa: \"\" can't be read: no such file or folder
ends 3
folder a_folder
run verify a_folder
tells csa: a_folder can't be read: it is a folder
ends 3
remove a_folder
run info
complains 64
run info - more
complains 64
run info no/such/file
tells csa: no/such/file can't be read: no such file or folder
ends 3
run tables
complains 64
run tables folder more
complains 64
run days
complains 64
run days folder more
complains 64
run profile -
complains 64
run build folder out
complains 64
run journey -
complains 64

# The word behind an option for a stop_id is that id, whatever it begins with; no word behind -- is an option.
run profile no/such/file --from --to --to -h --after 07:00:00 --until 09:00:00 --by 10:00:00 --criterion arrival
tells csa: no/such/file can't be read: no such file or folder
ends 3
run departures no/such/file --to -1 --to=-2 --after 07:00:00 --until 09:00:00 --by 10:00:00 --criterion arrival
tells csa: no/such/file can't be read: no such file or folder
ends 3
run journey --from -- --to -C --after 07:00:00 --until 09:00:00 --by 10:00:00 -- --from -1
tells csa: --from can't be read: no such file or folder
ends 3
run departures - --to C --from -1 --after 07:00:00 --until 09:00:00 --by 10:00:00 --criterion arrival
complains 64
run matrix - - --to -1 --after 07:00:00 --until 09:00:00 --by 10:00:00 --criterion arrival
complains 64
run profile - --from --to C --after 07:00:00 --until 09:00:00 --by 10:00:00 --criterion arrival
complains 64

# Help.
run --help
helps Usage: csa <COMMAND> | \n  verify  | \n  matrix  | \n  64  wrong command line
run verify --help
helps Usage: csa verify <IMAGE> | Example: csa verify examples/base.csa
run info --help
helps Usage: csa info [OPTIONS] <IMAGE> | Example: csa info examples/base.csa
run journey --help
helps Usage: csa journey --from <STOP_ID> | Example: csa journey examples/base.csa 'ride 0 0
run profile --help
helps Usage: csa profile [OPTIONS] --from <STOP_ID> | Example: csa profile examples/base.csa --from A
run departures --help
helps Usage: csa departures [OPTIONS] --to <STOP_ID> | Example: csa departures examples/base.csa --to C
run matrix --help
helps Usage: csa matrix [OPTIONS] --after <CLOCK> | A line of --to takes a scan from all stops | Example: csa matrix
run tables --help
helps Usage: csa tables [OPTIONS] <FOLDER> | Example: csa tables examples/base --all-faults
run days --help
helps Usage: csa days [OPTIONS] <FOLDER> | Example: csa days examples/base
run stations --help
helps Usage: csa stations [OPTIONS] <FOLDER> [TEXT] | case and accents do not matter | \
Example: csa stations examples/base c
run build --help
helps Usage: csa build [OPTIONS] --first <DAY> | by the clock in --zone, or today-1 | \
Example: csa build examples/base base.csa --first 20240115
run stops --help
helps Usage: csa stops [OPTIONS] <IMAGE> [TEXT] | csa stations finds the stop_ids of a feed by name | \
Example: csa stops examples/base.csa
run upgrade --help
helps Usage: csa upgrade <IMAGE> <OUT> | Example: csa upgrade examples/base.csa base.csa
run serve --help
helps Usage: csa serve [OPTIONS] --image <IMAGE> | --zone at each load | or --idle ended it | \
Example: csa serve --image examples/base.csa --port 7077
run help verify
helps Usage: csa verify <IMAGE> | Example: csa verify examples/base.csa
run --version
answers csa 1.21.0

# Days, dates and zones of a wrong form.
run build no_such_feed none.csa --first 20240115 --days 0 --zone fixed:0
tells error: --days \"0\": the number of days must be 1 to 14
tells 
tells Usage: csa build [OPTIONS] --first <DAY> --days <N> --zone <ZONE> <FOLDER> <OUT>
tells 
tells For more information, try 'csa build --help'.
ends 64
run build no_such_feed none.csa --first 20240115 --days 15 --zone fixed:0
complains 64
run build no_such_feed none.csa --first 20240115 --days +1 --zone fixed:0
complains 64
run build no_such_feed none.csa --first 20240115 --days '' --zone fixed:0
complains 64
run build no_such_feed none.csa --first 20240230 --days 1 --zone fixed:0
tells error: --first \"20240230\": there is no such date: 30 February 2024
tells 
tells Usage: csa build [OPTIONS] --first <DAY> --days <N> --zone <ZONE> <FOLDER> <OUT>
tells 
tells For more information, try 'csa build --help'.
ends 64
run build no_such_feed none.csa --first 20241301 --days 1 --zone fixed:0
tells error: --first \"20241301\": there is no such date: month 13 of 2024
tells 
tells Usage: csa build [OPTIONS] --first <DAY> --days <N> --zone <ZONE> <FOLDER> <OUT>
tells 
tells For more information, try 'csa build --help'.
ends 64
run build no_such_feed none.csa --first 00000101 --days 1 --zone fixed:0
tells error: --first \"00000101\": the first day is YYYYMMDD, a date of the years 1 to 9999, or today, or today-1
tells 
tells Usage: csa build [OPTIONS] --first <DAY> --days <N> --zone <ZONE> <FOLDER> <OUT>
tells 
tells For more information, try 'csa build --help'.
ends 64
run build no_such_feed none.csa --first tomorrow --days 1 --zone fixed:0
tells error: --first \"tomorrow\": the first day is YYYYMMDD, a date of the years 1 to 9999, or today, or today-1
tells 
tells Usage: csa build [OPTIONS] --first <DAY> --days <N> --zone <ZONE> <FOLDER> <OUT>
tells 
tells For more information, try 'csa build --help'.
ends 64
run build no_such_feed none.csa --first today-2 --days 1 --zone fixed:0
complains 64
run build no_such_feed none.csa --first TODAY --days 1 --zone fixed:0
complains 64
run build no_such_feed none.csa --first '' --days 1 --zone fixed:0
complains 64
run build no_such_feed none.csa --first 20240115 --days 1 --zone fixed:86400
complains 64
run build no_such_feed none.csa --first 20240115 --days 1 --zone fixed:-86400
complains 64
run build no_such_feed none.csa --first 20240115 --days 1 --zone fixed:1h
tells error: --zone \"fixed:1h\": a zone is file:PATH, posix:TEXT, or fixed:SECS, the seconds east of Greenwich, \
as fixed:3600 or fixed:-18000, at most 86399 either way
tells 
tells Usage: csa build [OPTIONS] --first <DAY> --days <N> --zone <ZONE> <FOLDER> <OUT>
tells 
tells For more information, try 'csa build --help'.
ends 64
run build no_such_feed none.csa --first 20240115 --days 1 --zone UTC
complains 64
run build no_such_feed none.csa --first 20240115 --days 1 --zone /usr/share/zoneinfo/UTC
complains 64
run build no_such_feed none.csa --first 20240115 --days 1 --zone file:UTC
complains 3
";

#[test]
fn command_lines_are_judged(rt: HostRuntime) -> Result<(), Fail> {
    try_transcripts(&rt, &[COMMAND_LINES])
}
