//! What the program says of itself.

pub const VERSION: &str = "slee 0.1\nproved over logic dac8208d650f15bf\n";

pub const HELP: &str = "slee: a service container after JAIN SLEE 1.1 (JSR 240)

usage: slee WORDS

  check      reads the deployment, deploy.json, and prints how many events,
             profiles, tables, blocks and services it has, and a status line
  play W S   plays the signal lines of standard input with W workers (1 to 64), in
             at most S entries (1 to 1000000), and prints the trace, the usage
             totals and a status line
  resume W S as play, but behind as many lines as the journal has taken
  show       prints the state that the journal has, and a status line
  compact    writes a snapshot of that state to the other side of the journal, in
             place of its records, and prints that side's generation and a status
             line
  gen SEED COUNT
             prints COUNT (0 to 100000) generated lines; SEED is 0 to 4294967295
  trial SEED COUNT
             plays generated lines, and prints a summary and a status line
  --help     prints this text
  --version  prints the version

Signal lines, each ended by a newline, at most 4096 bytes long, 16777216 in all:
  start NAME                       an external activity of this name starts
  fire NAME EVENT FIELD=VALUE ..   the event is fired on it
  fire NAME EVENT @SERVICE ..      the same, for one service alone
  end NAME                         it ends
  clock MOMENT                     this is the time, in milliseconds
  activate SERVICE                 a service selects events
  deactivate SERVICE               it does no longer
  profile-add TABLE ROW ATTRIBUTE=VALUE ..
  profile-update TABLE ROW ATTRIBUTE=VALUE ..
  profile-remove TABLE ROW
A name is a lower-case letter and up to 63 lower-case letters, digits and
underscores. In a value a space, a percent sign and a control byte are written
as a percent sign and two upper-case hexadecimal digits, and no other byte is.

A deployment is a JSON text of at most 1048576 bytes: event types, profiles,
tables, blocks with their scripts, and services. All commands read it first.

The journal is two files of the folder where it runs, journal.a and journal.b.
They are made where they are missing. Each entry is kept there, and synced,
before it counts; a later run goes on from the state that they have. No other
file is written, and deploy.json alone is read besides. check and gen leave the
journal alone. So do statuses 2, 3, 4, 5 and 13; 8 and 9 leave it as it is.

Statuses, printed last but by --help and --version, and the exit status:
  0 ok             all lines were taken, and no choice is left; or the deployment
                   has no fault
  2 bad-words      the words are of no form, or a number is out of range
  3 read-fault     deploy.json or standard input failed
  4 bad-deploy ..  deploy.json is no deployment; this is its first fault:
    json           it is no JSON
    shape POINTER KIND
                   the value at this JSON pointer: type, missing, unknown-member,
                   bad-name, repeated, unknown-name, range, alias
    syntax POINTER LINE:COLUMN KIND
                   the script there can't be read: token, expected, deep, end
    check POINTER LINE:COLUMN KIND
                   it isn't well typed: name, mismatch, count, place
  5 bad-signals LINE KIND
                   this line, from 1, is the first that is of no form: long,
                   control, utf8, empty, verb, count, name, number, field, escape
  6 (none)         standard output failed; a prefix of the text is out
  7 disk-fault     a file of the journal failed, or another program has the
                   journal open; what it has, show tells
  8 bad-journal SIDE AT KIND
                   the journal is damaged: in file a or b, at this byte, by its
                   header, length, sides, snapshot, record or replay
  9 other-deployment N M
                   the journal was written for a deployment of N bytes, which
                   differs from this one at byte M
  10 full N M      the journal has N bytes, and M more would be too many: a file
                   has at most 268435456
  11 steps-spent N N entries were made and more would be left, or the state
                   is used up
  12 no-memory     memory ran out
  13 too-large WHAT
                   deploy.json has more than 1048576 bytes (deploy), or standard
                   input gave more than 16777216 (signals)

example:
  printf 'start c1\\nfire c1 invite addr=tel:5551\\nend c1\\n' | slee play 1 100
";
