//! How the program is used.

/// What `--help` prints.
pub const HELP: &str = "\
naga_opt reads the JSON of a shader module, runs passes on it, and writes it.

usage: naga_opt [OPTIONS] [FILE]

FILE is the file to read. Without it, or if it is '-', standard input is read.

  --passes LIST      run these passes, separated by commas, in this order:
                       cull                  in each block, remove the statements
                                             after one that is a jump or ends in
                                             jumps; none are removed after a loop
                       close                 insert a return at each end of a body
                                             that control may reach; a function
                                             that has a result gets a return
                                             without a value, and is named on
                                             standard error
                       close-naga            the same by naga's rule, which inserts
                                             none at an end that is a switch
                       compact               remove the types, constants, overrides,
                                             global variables, functions and
                                             expressions that no entry point and no
                                             constant with a name uses, directly or
                                             through others
                       compact-keep-unused   the same, but keep functions, global
                                             variables, and types and overrides
                                             that have a name
                       restrict              clamp each access that may be out of
                                             bounds, so that no execution reads or
                                             writes an element that isn't there; it
                                             is an error if one cannot be clamped
                     [default: close where JSON is written, and no pass otherwise]
  --old              the same as --passes close-naga
  -o, --output FILE  write to this file, which is replaced at once by the whole
                     answer, and is unchanged if there is none
  --check            print a line for each fault of a declaration or a function,
                     a summary, and notes on returns that are missing and on
                     accesses that may be out of bounds; with a fault, the exit
                     status is 1
  --all              after --check, list all faults of types and all notes, where
                     20 of each kind are listed of a function otherwise
  --json             after --check, print the faults and the notes as JSON
  --text             print the module as readable text
  --dot              print the module as a graph for Graphviz
  --stats            print on standard error what each pass did
  -h, --help         print this text
  -V, --version      print the version
  --                 what follows is the file, even if it begins with a hyphen

The value of an option is the next argument, or follows '=', as in --passes=cull.

The exit status is 0 if the whole answer was written, 1 if it was not or if
--check found a fault, and 2 if the arguments are wrong.

Examples:

  naga_opt --passes cull,close,compact -o small.json shader.json
  naga_opt --check shader.json
";

/// What `--version` prints.
pub const VERSION: &str = "naga_opt 0.1.0\n";

/// The line that follows the message for wrong arguments.
pub const USAGE: &str =
    "usage: naga_opt [--passes LIST | --old] [--check [--all] [--json] | --text | --dot] [--stats] [-o FILE] [FILE]";
