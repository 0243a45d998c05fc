//! What the program tells of itself: of each command what it does, its words, an example with its output, and its refusals.

ghost use Rattle.std.specs.Prelude.{◌≡◌, Some, IfSome, IfNone, option_map};
ghost use Rattle.words_core.specs.Usage.{IsHelpOf};

/// What the words may be, and an example.
pub const HELP: &[u8] =
    b"image TYPE                                     makes a segment file of group lines, and writes it as hex
show TYPE                                      lists the records of a segment file, which is given as hex
play TYPE                                      runs a script of steps over a disk in memory
create TYPE FILE [--format=1|2] [--over]       makes a file with an empty vector
load TYPE FILE [--seats=N]                     appends a growth for each line of the input
append TYPE FILE [--block=N] [--every=MS]      the same for input of any length, a growth for N lines
serve TYPE FILE --seats=N                      lets N other programs grow it, through pipes
check TYPE FILE                                reads the file, and tells what it has
stat FILE [--json]                             tells what any file has, without reading its records
list TYPE FILE [--from=I] [--count=N]          writes its records, one a line
follow TYPE FILE [--from=I] [--once] ..        writes its records, and then those that come
count TYPE FILE --record=R                     counts the records that equal R
find TYPE FILE --record=R                      writes the position of the first one
set TYPE FILE START --records=R,R,..|--input   replaces the records from START on
resize TYPE FILE N --record=R [--parts]        makes the length N, new records are R
clear TYPE FILE                                takes all records away
fold TYPE FILE                                 puts live changes into their home bytes
upgrade TYPE FILE NEW                          copies a vector to a new file of version 2
copy TYPE FILE NEW [--format=1|2] [--block=N]  copies a vector to a new file, without what changes have left

'cvec help COMMAND' tells of each, 'cvec version' of the program. --quiet: no progress on the terminal.
--wait[=SECONDS]: where another command has FILE, its end is waited for, so long or for good.
--refusals=stderr: 'refused: NAME' goes to standard error, so that standard output has records and answers alone.
TYPE is u8, u16, u32, u64, i32, i64, f32, f64 (as 0.5 or 1e-9), pair (a u64 and an i64, as 7:-3),
flagged (a u64 and 0 or 1, as 5:1), or bytes16, bytes24, bytes32, bytes64 (so many bytes, as hex digits in lower case).
A growth has records with a space between each two, and a group line growths with ' | ' between each two.

cvec create u64 t.cv
echo '5 6 7' | cvec load u64 t.cv
cvec list u64 t.cv
echo '1 2 | 3' | cvec image u64
";

/// The program's version, the versions of files that it reads and writes, and what it was proved and built with.
pub const VERSION: &[u8] = b"cvec 1.0
files of version 1 and 2
proved and built with rattle-kit-13f logic dac8208d650f15bf
";

const IMAGE: &[u8] = b"cvec image TYPE

Makes a segment file of the group lines of the input, one group each, and writes it as a hex line. A group line has growths
with ' | ' between each two, and a growth has records with a space between each two.

  $ echo 5 | cvec image u64
  01435645435345470108000101100000000100000001000000050000000000000000

Refused: line N, too large at line N, input, input too long, memory.
";

const SHOW: &[u8] = b"cvec show TYPE

Lists the records of the segment file that the input is in hex, one a line.

  $ echo '5' | cvec image u64 | cvec show u64
  5

Refused: not hex, the file's first fault, input, input too long, memory.
";

const PLAY: &[u8] = b"cvec play TYPE

Runs a script of steps over a disk in memory, and writes a line for each of its lines, which are

create           share ROOM SEATS      take          list
create 2         put SEAT R R ..       raise         clear
open             look SEAT             close         resize N R
fold             look f                gather        change START R R ..
log              view SEAT             crash old     changes START R R .. | START R R ..
home             settled SEAT          crash new     crash XX

with records for R, numbers for the other words in capitals, and two hex digits for XX.

  $ printf 'create\\nresize 1 5\\ncrash old\\nopen\\nlist\\n' | cvec play u64
  ok
  ok
  crashed 34
  size 1
  5

Refused: line N, input, input too long, memory.
";

const STAT: &[u8] = b"cvec stat FILE [--json] [--quiet]

Tells what a file has, whatever the type of its records is, and takes little memory for a file of any length: it reads the
first bytes of each frame, and not the records. Lengths and places are in bytes: width is that of a record, gate is the
place where the frames end, and behind tells how many bytes behind it mean nothing. With --json it is one line, an object
of these names and numbers.

  $ echo '5 6 7' | cvec load u64 t.cv
  loaded 1 growths, size 3
  $ cvec stat t.cv
  version 1
  width 8
  bytes 50
  groups 1
  changes 0
  shrinks 0
  folds 0
  growths 1
  records 3
  size 3
  live 0
  gate 49
  behind 0

Refused: the file's first fault (unborn, not a segment, version V, width 0, damaged at P: CAUSE), file, and the disk's
faults.
";

const SERVE: &[u8] = b"cvec serve TYPE FILE --seats=N

Lets N other programs, of any language, grow the vector at once, 1 to 64. Client k, from 0, writes its requests to a pipe
that this program has as descriptor 3 + 2k, and reads the answers from 4 + 2k: to grow by a block of records, to wait until
what it grew is on the device, to look how many records there are, to read some. docs/use/serve.md has their bytes, and
bindings/c and bindings/python have clients. It ends when all clients have; a signal ends it as a crash does.

  $ mkfifo requests answers
  $ cvec serve u64 t.cv --seats=1 3<requests 4>answers & your_program 3>requests 4<answers
  served 1000 growths

Refused: the file's first fault (unborn, not a segment, version V, width W, damaged at P: CAUSE), file (also where a pipe
isn't there), broken and unsettled N (growths from N on may be lost), memory, and the disk's faults.
";

const CREATE: &[u8] = b"cvec create TYPE FILE [--format=1|2] [--over]

Makes a file with an empty vector. Its version is 1, or the one that is given. A file that is there already is taken only
where it is empty, or has what a stopped creation leaves; with --over whatever it has is lost.

  $ cvec create u64 t.cv
  created

Refused: exists (the file stays as it is), file, memory, and the disk's faults.
";

const LOAD: &[u8] = b"cvec load TYPE FILE [--seats=N] [--lenient] [--quiet] < LINES

Appends a growth for each line of the input: records with one space between each two. N growers (1 to 64, else 1) take the
lines in turn. When it has told 'loaded', all growths are on the device. The input has at most 67108864 bytes; 'append'
takes any. With --lenient a line may end with a carriage return too, and may have tabs for blanks, and more of them than
one, also at its front and end.

  $ echo '5 6 7' | cvec load u64 t.cv
  loaded 1 growths, size 3

Refused: line N and too large at line N (nothing is grown), input, input too long, file, the file's first fault, closed,
full, too long, broken (the device may be full), memory (some growths may stand), and the disk's faults.
";

const APPEND: &[u8] =
    b"cvec append TYPE FILE [--block=N] [--every=MS] [--rotate=RECORDS] [--lenient] [--progress] [--quiet] < LINES

Appends growths of an input of any length, and puts them on the device some lines at a time. The records of N lines, else of
one, are a growth; the last one may have fewer lines. A growth that has its lines waits for more MS milliseconds (1 to 60000,
else 200), and no longer than until there are 4 MiB. Where a line is refused, the growths before the one that it is in stand,
and standard error tells of how many lines they are. --lenient takes lines as 'load' does with it. With --progress a line of
standard error tells what is on the device, at most each second, also where that is no terminal.

With --rotate a file that has RECORDS records or more is full, and the next growth goes to the next file, which is made: behind
t.cv that is t-000002.cv, and so on. Growths stay whole. It begins with the last file that is there. A line is written for each.

  $ seq 1 1000000 | cvec append u64 t.cv --block=1000
  appended 1000 growths, size 1000000
  $ seq 1 3 | cvec append u64 t.cv --rotate=1000001
  t.cv: appended 1 growths, size 1000001
  t-000002.cv: appended 2 growths, size 2

Refused: as load; input too long is of the lines of one growth.
";

const CHECK: &[u8] = b"cvec check TYPE FILE [--json] [--quiet]

Tells the version of a sound file, the bytes of a record, how many records its vector has, how many frames it has, and how
many changes are live, which `fold` puts into their home bytes.

  $ cvec check u64 t.cv
  ok version 1 width 8 size 3 frames 1 live 0

Refused: the file's first fault (unborn, not a segment, version V, width W, damaged at P: CAUSE), file, bad record I
(beside a writer), memory, and the disk's faults.
";

const LIST: &[u8] = b"cvec list TYPE FILE [--from=I] [--count=N] [--json] [--quiet]
cvec list TYPE FILE --last=N [--json] [--quiet]

Writes the records one a line: all, or those from position I on, N at most; or the last N. With --json each line is JSON: a
number, a pair of numbers, or a text.

  $ cvec list u64 t.cv --from=1 --count=1
  6

Refused: word, file, the file's first fault, bad record I (beside a writer), memory, and the disk's faults.
";

const FOLLOW: &[u8] = b"cvec follow TYPE FILE [--from=I] [--once] [--reopen] [--poll=MS] [--quiet]
cvec follow TYPE FILE --events [--after=PLACE] [--once] [--poll=MS] [--quiet]

Writes the records from position I on, else from 0, one a line, and then those that come: each once, when it is on the
device. It takes no lock, so it is used beside a writer. It looks each MS milliseconds (1 to 60000, else 100), or with --once
one time, and then it ends. With --reopen it goes on from position 0 with the file that has the name then, where FILE was
replaced; where there is none, it waits for one.

With --events its lines are what another process needs to keep an exact copy:

+ RECORD      the record is put behind the last one
= I RECORD    the record takes the place of that at position I
< N           the vector is cut to N records
. PLACE       a step is whole: the copy is what the vector was at one moment, on the device

Keep PLACE with the copy: --after=PLACE goes on exactly behind it.

  $ cvec follow u64 t.cv --from=1 --once
  6
  7

Refused: changed I and shorter N (a record that was written isn't so any more; not with --events), replaced (FILE leads to
another file now, or to none), cut (the file has become shorter), word, file, the file's first fault, bad record I, file full,
memory, and the disk's faults.
";

const COUNT: &[u8] = b"cvec count TYPE FILE --record=R [--json] [--quiet]

Writes how many records equal R.

  $ cvec count u64 t.cv --record=6
  1

Refused: word, file, the file's first fault, bad record I (beside a writer), memory, and the disk's faults.
";

const FIND: &[u8] = b"cvec find TYPE FILE --record=R [--json] [--quiet]

Writes the least position whose record equals R, or none.

  $ cvec find u64 t.cv --record=4
  none

Refused: word, file, the file's first fault, bad record I (beside a writer), memory, and the disk's faults.
";

const SET: &[u8] = b"cvec set TYPE FILE START --records=R,R,..
cvec set TYPE FILE START --input [--lenient] < LINES

Puts the records in the place of those from position START on, as one change: after a crash all of it is there, or none.
With --input they are those of all lines of the input, one or more a line with one space between each two, and --lenient
takes lines as 'load' does with it. Without a line nothing is changed.

  $ cvec set u64 t.cv 1 --records=8,9
  ok
  $ echo '8 9' | cvec set u64 t.cv 1 --input
  ok

Refused: word, line N, input, input too long (then nothing was opened), file, the file's first fault, out of range, too
large, file full, memory, and the disk's faults.
";

const RESIZE: &[u8] = b"cvec resize TYPE FILE N --record=R [--parts]

Makes the length N: by records R behind the last one, or by taking the last ones away. It is one frame, so it is refused
where new records are more than one takes. With --parts these come in as many growths as they take, one after the other:
after a crash or a refusal the first of them may stand, and the same command goes on.

  $ cvec resize u64 t.cv 2 --record=0
  ok

Refused: word, file, the file's first fault, unfolded (fold first), out of range, too large, file full, memory, and the
disk's faults.
";

const CLEAR: &[u8] = b"cvec clear TYPE FILE

Takes all records away. The file doesn't become shorter.

  $ cvec clear u64 t.cv
  ok

Refused: file, the file's first fault, unfolded (fold first), file full, memory, and the disk's faults.
";

const FOLD: &[u8] = b"cvec fold TYPE FILE [--quiet]

Puts the live changes into their home bytes, and writes how many they were. Then the vector can become shorter.

  $ cvec fold u64 t.cv
  folded 1

Refused: file, the file's first fault, file full, memory, and the disk's faults.
";

const UPGRADE: &[u8] = b"cvec upgrade TYPE FILE NEW [--quiet]

Copies the vector of a file of version 1 to a new file of version 2. FILE stays as it is. One that was stopped is begun
again, on another new file.

  $ cvec upgrade u64 t.cv n.cv
  upgraded size 3

Refused: file, old and FILE's first fault, not version 1, new exists (remove NEW, or name another file), and new with the
faults of a write.
";

const COPY: &[u8] = b"cvec copy TYPE FILE NEW [--format=1|2] [--block=N] [--sound] [--quiet]

Copies the vector of a file to a new file, without the frames that changes, folds and shrinks have left. NEW has the version
of FILE, or the one that is given, and its growths have N records, or as many as a frame takes. FILE stays as it is; with
'mv NEW FILE', while no command has one of them, NEW takes its place. One that was stopped is begun again, on another new
file.

With --sound the frames of a damaged FILE that stand whole before the damage are copied, and standard error tells what of it
wasn't. Their bytes are put into the file NEW.front meanwhile.

  $ cvec copy u64 t.cv n.cv
  copied size 3

Refused: file, old and FILE's first fault, new exists (remove NEW, or name another file), new too large (a frame takes fewer
than N records), and new with the faults of a write.
";

/// What is told of a command that changes a vector.
fn help_of_changing(command: &str) -> Option<&'static [u8]>
    ensures { IfSome result (λ text. IsHelpOf command.now text.now) }
{
    match command {
        "set" => Some(SET),
        "resize" => Some(RESIZE),
        "clear" => Some(CLEAR),
        "fold" => Some(FOLD),
        _ => None,
    }
}

/// What is told of a command that reads a vector, or changes it.
fn help_of_reading(command: &str) -> Option<&'static [u8]>
    ensures { IfSome result (λ text. IsHelpOf command.now text.now) }
{
    match command {
        "check" => Some(CHECK),
        "list" => Some(LIST),
        "follow" => Some(FOLLOW),
        "count" => Some(COUNT),
        "find" => Some(FIND),
        "stat" => Some(STAT),
        _ => help_of_changing(command),
    }
}

/// What is told of a command over a file.
fn help_over_file(command: &str) -> Option<&'static [u8]>
    ensures { IfSome result (λ text. IsHelpOf command.now text.now) }
{
    match command {
        "create" => Some(CREATE),
        "load" => Some(LOAD),
        "append" => Some(APPEND),
        "serve" => Some(SERVE),
        "upgrade" => Some(UPGRADE),
        "copy" => Some(COPY),
        _ => help_of_reading(command),
    }
}

/// What is told of a command.
pub fn help_of(command: &str) -> Option<&'static [u8]>
    ensures { IfSome result (λ text. IsHelpOf command.now text.now) }
{
    match command {
        "image" => Some(IMAGE),
        "show" => Some(SHOW),
        "play" => Some(PLAY),
        _ => help_over_file(command),
    }
}

/// What `help` writes: of a command, or of all.
pub fn help_text(command: Option<&str>) -> Option<&'static [u8]>
    ensures one { IfSome command.entry (λ name. IfSome result (λ text. IsHelpOf name.now text.now)) }
    ensures all { IfNone command.entry (option_map (λ text. text.now) result ≡ Some HELP.now) }
{
    match command {
        Some(command) => help_of(command),
        None => Some(HELP),
    }
}
