//! `csa stations`: stations with their stops, found by a part of an id or a name.

use crate::tests::transcript::try_transcripts;
use std::test::Fail;

const FEED: &str = "
folder swiss
file swiss/stops.txt
has stop_name,platform_code,stop_id,parent_station,location_type
has Zürich HB,,Parent8503000,,1
has Zürich HB,31,ch:1:sloid:3000:31,Parent8503000,
has Genève,,Parent8501008,,1
has Zürich HB,32,ch:1:sloid:3000:32,Parent8503000,0
has Zürich HB Eingang,,entrance,Parent8503000,2
has Genève,4,8501008:0:4,Parent8501008,
has \"Straße, alt\",,Str1,,
has Leer,,empty,,1

# All, in the order of the file: a station without stops, and a stop without a station; no entrance.
run stations swiss
prints station\tParent8503000\tZürich HB\tch:1:sloid:3000:31\t31\tch:1:sloid:3000:32\t32
prints station\tParent8501008\tGenève\t8501008:0:4\t4
prints stop\tStr1\tStraße, alt\tStr1\t
prints station\tempty\tLeer
ends 0

# A part of a name in another case, without its accents, or with an accent of its own.
run stations swiss zurich
answers station\tParent8503000\tZürich HB\tch:1:sloid:3000:31\t31\tch:1:sloid:3000:32\t32
run stations swiss 'GENE\u{300}VE'
answers station\tParent8501008\tGenève\t8501008:0:4\t4
run stations swiss STRASSE
answers stop\tStr1\tStraße, alt\tStr1\t

# A part of the id of a station's stop, and of an entrance alone.
run stations swiss SLOID:3000:32
answers station\tParent8503000\tZürich HB\tch:1:sloid:3000:31\t31\tch:1:sloid:3000:32\t32
run stations swiss entrance
tells csa: no id or name of a station or stop contains \"entrance\"
ends 0

# The same as JSON.
run stations swiss --json gen
answers [{\"id\":\"Parent8501008\",\"name\":\"Genève\",\
\"stops\":[{\"id\":\"8501008:0:4\",\"platform\":\"4\"}],\"type\":\"station\"}]
run stations swiss --json r
prints [{\"id\":\"Parent8503000\",\"name\":\"Zürich HB\",\"stops\":[\
{\"id\":\"ch:1:sloid:3000:31\",\"platform\":\"31\"},\
{\"id\":\"ch:1:sloid:3000:32\",\"platform\":\"32\"}],\"type\":\"station\"},\
{\"id\":\"Parent8501008\",\"name\":\"Genève\",\"stops\":[\
{\"id\":\"8501008:0:4\",\"platform\":\"4\"}],\"type\":\"station\"},\
{\"id\":\"Str1\",\"name\":\"Straße, alt\",\"stops\":[{\"id\":\"Str1\",\"platform\":\"\"}],\"type\":\"stop\"},\
{\"id\":\"empty\",\"name\":\"Leer\",\"stops\":[],\"type\":\"station\"}]
ends 0
run stations swiss --json nowhere
tells csa: no id or name of a station or stop contains \"nowhere\"
answers []

# A byte order mark, CR LF, quotes, and another form of letters and of a space.
file swiss/stops.txt
crlf \u{feff}stop_id,stop_name
crlf N,\"Halle №\u{a0}5 \"\"Süd\"\"\"
run stations swiss 'NO 5 \"su'
answers stop\tN\tHalle №\u{a0}5 \"Süd\"\tN\t

# Tabs and ends of lines within a name.
file swiss/stops.txt
has stop_id,stop_name
has A,\"two
has lines\tand a tab\"
run stations swiss
answers stop\tA\ttwo lines and a tab\tA\t
run stations swiss --json
answers [{\"id\":\"A\",\"name\":\"two\\nlines\\tand a tab\",\"stops\":[\
{\"id\":\"A\",\"platform\":\"\"}],\"type\":\"stop\"}]
";

const FAULTS: &str = "
# A file without names; without rows; without a required column; and none at all.
rows swiss/stops.txt stop_id | A | B
run stations swiss b
answers stop\tB\t\tB\t
rows swiss/stops.txt stop_id
run stations swiss
tells csa: stops.txt has no station and no stop
ends 0
rows swiss/stops.txt stop_name | A
tells csa: stops.txt, line 1: the header lacks stop_id: it is \"stop_name\"
answers refused 2 MissingColumn stops.txt 0
remove swiss/stops.txt
tells csa: swiss: no file stops.txt
answers refused 1 MissingFile stops.txt 0

# A parent that is no station, and an id that is there twice.
rows swiss/stops.txt stop_id,parent_station,location_type | S,,1 | A,S, | B,A, | C,Q,
tells csa: stops.txt, line 4: parent_station \"A\" isn't a station in stops.txt (the field may be left blank)
answers refused 9 UnknownId stops.txt 3
rows swiss/stops.txt stop_id,parent_station,location_type | S,,1 | A,S, | A,,
tells csa: stops.txt, line 4: stop_id \"A\" is in line 3 too
answers refused 8 IdTwice stops.txt 3
remove swiss

# No folder.
tells csa: swiss: no such file or folder
answers refused 1 MissingFile stops.txt 0
run stations
complains 64
run stations --help
helps
";

#[test]
fn stations_are_found_by_their_names(rt: HostRuntime) -> Result<(), Fail> {
    try_transcripts(&rt, &[FEED, FAULTS])
}
