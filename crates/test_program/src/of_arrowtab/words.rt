//! The words of the command line: the job that they ask for, or what is printed in its stead, and the status.
ghost use Rattle.std.specs.Prelude.{◌^◌, ◌-◌, ◌<◌};

use super::{Outcome, assert_case};
use arrowtab::memory::{MemorySink, Plan};
use arrowtab::{Command, Job, JobFault, Output, QuerySource, job, print_fault};
use std::alloc::Global;

/// Words, each behind one space, the command that they ask for, or the text of its query, or the name of its file, the files that it is about,
/// how many workers, and the text of a column, a dash where there is none.
type Row = (&'static str, &'static str, &'static str, u32, &'static str);

static JOBS: [Row; 24] = [
    ("arrowtab stats A", "stats", "A", 1, "-"),
    ("a/b stats B A B", "stats", "B A B", 1, "-"),
    // An empty name.
    ("arrowtab stats ", "stats", "", 1, "-"),
    ("arrowtab stats stats help", "stats", "stats help", 1, "-"),
    ("arrowtab stats -- -h --", "stats", "-h --", 1, "-"),
    ("arrowtab schema A", "schema", "A", 1, "-"),
    ("arrowtab validate B A", "validate", "B A", 1, "-"),
    ("arrowtab head -n 3 B A", "head", "B A", 1, "-"),
    ("arrowtab export A", "export", "A", 1, "-"),
    ("arrowtab export B A B", "export", "B A B", 1, "-"),
    ("arrowtab query --query {} A", "{}", "A", 1, "-"),
    ("arrowtab query B --query={} A", "{}", "B A", 1, "-"),
    // An empty query.
    ("arrowtab query --query  A", "", "A", 1, "-"),
    (
        "arrowtab query --query query -- --query",
        "query",
        "--query",
        1,
        "-",
    ),
    ("arrowtab query --query-file Q A", "Q", "A", 1, "-"),
    ("arrowtab query A --query-file=- B", "-", "A B", 1, "-"),
    ("arrowtab stats B - ./-", "stats", "B - ./-", 1, "-"),
    ("arrowtab export A --workers=64", "export", "A", 64, "-"),
    ("arrowtab stats --workers +7 A", "stats", "A", 7, "-"),
    (
        "arrowtab query --workers 2 --query {} A B",
        "{}",
        "A B",
        2,
        "-",
    ),
    ("arrowtab stats --add-column {} A", "stats", "A", 1, "{}"),
    ("arrowtab export A --add-column=", "export", "A", 1, ""),
    (
        "arrowtab query --add-column [] --query {} A",
        "{}",
        "A",
        1,
        "[]",
    ),
    (
        "arrowtab stats -- --add-column",
        "stats",
        "--add-column",
        1,
        "-",
    ),
];

/// The job that the words of a line ask for.
fn job_of(alloc: Global, line: &str) -> Result<Job, JobFault> {
    match line.split(' ').collect::<Vec<&str>>(alloc) {
        Ok(words) => job(alloc, words.as_slice()),
        Err(_) => Err(JobFault::NoMemory),
    }
}

/// What the command is called in the table.
fn name_of(command: &Command) -> &str {
    match command {
        Command::Stats => "stats",
        Command::Schema => "schema",
        Command::Validate => "validate",
        Command::Head(_) => "head",
        Command::Export => "export",
        Command::Query { query, output: _ } => match query {
            QuerySource::Text(text) => str::from_utf8(text).unwrap_or("no text"),
            QuerySource::File(name) => name.as_str(),
        },
    }
}

#[test]
fn words_ask_for_a_job(rt: HostRuntime) {
    for row in &JOBS {
        assert_case(&rt, asks_for_job(rt.alloc(), row), &[row.0], row.1);
    }
}

/// Whether the words of a row ask for its job.
fn asks_for_job(alloc: Global, row: &Row) -> bool {
    match job_of(alloc, row.0) {
        Ok(job) => is_job(&job, row),
        Err(_) => false,
    }
}

fn is_job(job: &Job, row: &Row) -> bool {
    let (_, command, names, workers, column) = *row;
    (name_of(&job.command), job.workers) == (command, workers)
        && are(&job.names, names)
        && is_column(&job.column, column)
}

/// How many rows words ask for, or for what form.
#[derive(Clone, Copy)]
enum Request {
    Rows(u64),
    Form(Output),
}

/// Words, and what they ask for.
static REQUESTS: [(&str, Request); 9] = [
    ("arrowtab head A", Request::Rows(10)),
    ("arrowtab head -n 0 A", Request::Rows(0)),
    ("arrowtab head -n3 A", Request::Rows(3)),
    ("arrowtab head A -n=+7", Request::Rows(7)),
    (
        "arrowtab head -n 18446744073709551615 A",
        Request::Rows(18_446_744_073_709_551_615),
    ),
    ("arrowtab query --query {} A", Request::Form(Output::Lines)),
    (
        "arrowtab query --query {} --output lines A",
        Request::Form(Output::Lines),
    ),
    (
        "arrowtab query A --output=json --query {}",
        Request::Form(Output::Json),
    ),
    (
        "arrowtab query --output csv --query {} A",
        Request::Form(Output::Csv),
    ),
];

#[test]
fn words_ask_for_rows_and_forms(rt: HostRuntime) {
    for (line, asked) in &REQUESTS {
        assert_case(
            &rt,
            ask_for(rt.alloc(), *line, *asked),
            &[*line],
            "rows or a form",
        );
    }
}

/// Whether the words of a line ask for this.
fn ask_for(alloc: Global, line: &str, asked: Request) -> bool {
    match job_of(alloc, line) {
        Ok(job) => is_asked(&job.command, asked),
        Err(_) => false,
    }
}

fn is_asked(command: &Command, asked: Request) -> bool {
    match (command, asked) {
        (Command::Head(count), Request::Rows(wanted)) => *count == wanted,
        (Command::Query { query: _, output }, Request::Form(wanted)) => *output == wanted,
        _ => false,
    }
}

fn are(names: &[String], wanted: &str) -> bool {
    let found = names.iter().map(String::as_str);
    found.eq(wanted.split(' '))
}

/// Whether a column is of this text, where it's a dash for none.
fn is_column(column: &Option<String>, wanted: &str) -> bool {
    match column {
        Some(column) => column.as_str() == wanted,
        None => wanted == "-",
    }
}

const HELP: &str = "Tells what files in Apache Arrow's JSON integration format hold, as one table

Usage: arrowtab <COMMAND>

Commands:
  stats     Print rows, nulls, sum, least and greatest of each column
  schema    Print name, type and nullability of each column
  validate  Print nothing where all files make one table, else the first fault
  head      Print the first rows, each as an object of JSON
  export    Print the table as one file, each text once in its dictionary
  query     Print a line for each group of rows, as a query asks
  help      Print this message or the help of the given subcommand(s)

Options:
  -h, --help     Print help
  -V, --version  Print version

Exit status: 0 if all was done; 1 for a fault in a file, the query, the column, the output or memory;
2 for a mistake in the arguments.
";

const STATS_HELP: &str = "Print rows, nulls, sum, least and greatest of each column

Usage: arrowtab stats [OPTIONS] <FILE>...

Arguments:
  <FILE>...  Files of one table, which has the first one's schema; - is standard input

Options:
      --workers <N>         How many workers load the files and answer the query at once, from 1 to 64 [default: 1]
      --add-column <FIELD>  A column to add once the files are loaded, null in each row: a field as an object of JSON
  -h, --help                Print help

Output: the rows; of each worker its calls and rows; of each column its name, type, rows, nulls, sum,
least and greatest, and - where its type has none.

Example: arrowtab stats --workers 2 january.json february.json
";

const SCHEMA_HELP: &str = "Print name, type and nullability of each column

Usage: arrowtab schema [OPTIONS] <FILE>...

Arguments:
  <FILE>...  Files of one table, which has the first one's schema; - is standard input

Options:
      --workers <N>         How many workers load the files and answer the query at once, from 1 to 64 [default: 1]
      --add-column <FIELD>  A column to add once the files are loaded, null in each row: a field as an object of JSON
  -h, --help                Print help

Output: of each column its name, its type as the table stores it, and whether it may hold nulls.

Example: arrowtab schema cities.json
";

const VALIDATE_HELP: &str = "Print nothing where all files make one table, else the first fault

Usage: arrowtab validate [OPTIONS] <FILE>...

Arguments:
  <FILE>...  Files of one table, which has the first one's schema; - is standard input

Options:
      --workers <N>         How many workers load the files and answer the query at once, from 1 to 64 [default: 1]
      --add-column <FIELD>  A column to add once the files are loaded, null in each row: a field as an object of JSON
  -h, --help                Print help

Output: none. The status says whether all files can be loaded into one table; if not, the fault is reported.

Example: arrowtab validate january.json february.json
";

const HEAD_HELP: &str = "Print the first rows, each as an object of JSON

Usage: arrowtab head [OPTIONS] <FILE>...

Arguments:
  <FILE>...  Files of one table, which has the first one's schema; - is standard input

Options:
      --workers <N>         How many workers load the files and answer the query at once, from 1 to 64 [default: 1]
      --add-column <FIELD>  A column to add once the files are loaded, null in each row: a field as an object of JSON
  -n <ROWS>                 How many rows are printed [default: 10]
  -h, --help                Print help

Output: of each row an object of JSON, whose members are the columns. Where fewer rows are there, all of
them are printed.

Example: arrowtab head -n 3 cities.json
";

const EXPORT_HELP: &str = "Print the table as one file, each text once in its dictionary

Usage: arrowtab export [OPTIONS] <FILE>...

Arguments:
  <FILE>...  Files of one table, which has the first one's schema; - is standard input

Options:
      --workers <N>         How many workers load the files and answer the query at once, from 1 to 64 [default: 1]
      --add-column <FIELD>  A column to add once the files are loaded, null in each row: a field as an object of JSON
  -h, --help                Print help

Output: an object of JSON with the schema, the batches as they were loaded, and a dictionary for each
column of texts.

Example: arrowtab export cities.json > table.json
";

const QUERY_HELP: &str = "Print a line for each group of rows, as a query asks

Usage: arrowtab query [OPTIONS] <FILE>...

Arguments:
  <FILE>...  Files of one table, which has the first one's schema; - is standard input

Options:
      --workers <N>         How many workers load the files and answer the query at once, from 1 to 64 [default: 1]
      --add-column <FIELD>  A column to add once the files are loaded, null in each row: a field as an object of JSON
      --query <QUERY>       The query, an object of JSON with the members filter, by and aggs
      --query-file <FILE>   The file that the query is in, in place of --query
      --output <FORMAT>     How groups are printed: as lines, json or csv [default: lines]
  -h, --help                Print help

A query is an object of JSON with the members filter (an expression), by (an array of up to 4 names of
columns) and aggs (an array of aggregates), each of which may be absent. Other members are passed over.

Expressions E:
  {\"column\":\"n\"}  {\"int\":5}  {\"text\":\"s\"}
  {\"op\":OP,\"args\":[E,E]}  add sub mul, of two integers of one type
                          eq ne lt le gt ge, of two integers of one type, truth values or texts
                          and or, of two truth values
  {\"op\":OP,\"args\":[E]}    not, of a truth value; is_null, of anything

Aggregates:
  {\"agg\":\"rows\"}  {\"agg\":AGG,\"column\":\"n\"}  AGG is count, sum, least or greatest

Output: of each group, in order of first appearance, the items of its key and then its aggregates, as JSON;
with --output csv as CSV, behind a record of names.

Examples:
  arrowtab query --query '{\"by\":[\"city\"],\"aggs\":[{\"agg\":\"rows\"}]}' cities.json
  arrowtab query --query '{\"filter\":{\"op\":\"lt\",\"args\":[{\"column\":\"people\"},{\"int\":5}]},\"by\":[\"city\"]}' cities.json
";

const VERSION: &str = "arrowtab 0.1.0 (2026-11-30, rattle-kit-13f)\n";

/// Prints a fault to this output.
fn report(alloc: Global, fault: &JobFault, out: MemorySink) -> Outcome
    requires { out.failures < 2 ^ 64 - 1 }
{
    let mut out = out;
    let mut err = MemorySink::new(alloc);
    let status = print_fault(alloc, fault, &mut out, &mut err);
    Outcome { status, out, err }
}

/// Whether a fault comes to this status, and prints this.
fn prints(alloc: Global, fault: &JobFault, status: u8, out: &str, err: &str) -> bool {
    report(alloc, fault, MemorySink::new(alloc)).is(status, out, err)
}

#[test]
fn help_may_fail(rt: HostRuntime) {
    assert!(rt; tells_that_help_failed(rt.alloc()));
}

/// Whether help that is cut off in its second write is reported, and with status 1.
fn tells_that_help_failed(alloc: Global) -> bool {
    let Err(help) = job_of(alloc, "arrowtab --help") else {
        return false;
    };
    let out = MemorySink::new(alloc).in_pieces(7).failing(Plan::At(1));
    report(alloc, &help, out).is(1, "Tells w", "arrowtab: output failed\n")
}

/// Words that are no job, what `clap` says of them, and whether that is the help or the version that was requested.
static NO_JOBS: [(&str, &str, bool); 27] = [
    ("arrowtab --help", HELP, true),
    ("bin/arrowtab -h", HELP, true),
    ("arrowtab help", HELP, true),
    ("arrowtab stats A --help", STATS_HELP, true),
    ("arrowtab help stats", STATS_HELP, true),
    ("arrowtab help schema", SCHEMA_HELP, true),
    ("arrowtab help validate", VALIDATE_HELP, true),
    ("arrowtab help head", HEAD_HELP, true),
    ("arrowtab help export", EXPORT_HELP, true),
    ("arrowtab query --help", QUERY_HELP, true),
    ("arrowtab --version", VERSION, true),
    ("arrowtab -V", VERSION, true),
    ("arrowtab", HELP, false),
    (
        "arrowtab stats",
        "error: the following required arguments were not provided:
  <FILE>...

Usage: arrowtab stats <FILE>...

For more information, try '--help'.
",
        false,
    ),
    (
        "arrowtab stat A",
        "error: unrecognized subcommand 'stat'

  tip: a similar subcommand exists: 'stats'

Usage: arrowtab <COMMAND>

For more information, try '--help'.
",
        false,
    ),
    (
        "arrowtab query A",
        "arrowtab: query wants --query or --query-file\n",
        false,
    ),
    (
        "arrowtab query --query {} A --query-file Q",
        "arrowtab: --query and --query-file are two queries\n",
        false,
    ),
    (
        "arrowtab query --query-file Q --query-file Q A",
        "error: the argument '--query-file <FILE>' cannot be used multiple times

Usage: arrowtab query [OPTIONS] <FILE>...

For more information, try '--help'.
",
        false,
    ),
    (
        "arrowtab stats - A -",
        "arrowtab: - is standard input, which is read once\n",
        false,
    ),
    (
        "arrowtab query --query-file - -",
        "arrowtab: - is standard input, which is read once\n",
        false,
    ),
    (
        "arrowtab query --query {} --query={} A",
        "error: the argument '--query <QUERY>' cannot be used multiple times

Usage: arrowtab query [OPTIONS] <FILE>...

For more information, try '--help'.
",
        false,
    ),
    (
        "arrowtab stats --workers 0 A",
        "error: invalid value '0' for '--workers <N>': 0 is not in 1..=64

For more information, try '--help'.
",
        false,
    ),
    (
        "arrowtab export --workers 65 A",
        "error: invalid value '65' for '--workers <N>': 65 is not in 1..=64

For more information, try '--help'.
",
        false,
    ),
    (
        "arrowtab head -n 18446744073709551616 A",
        "error: invalid value '18446744073709551616' for '-n <ROWS>': number too large to fit in target type

For more information, try '--help'.
",
        false,
    ),
    (
        "arrowtab query --query {} --output xml A",
        "arrowtab: --output is lines, json or csv\n",
        false,
    ),
    (
        "arrowtab stats --add-column {} --add-column {} A",
        "error: the argument '--add-column <FIELD>' cannot be used multiple times

Usage: arrowtab stats [OPTIONS] <FILE>...

For more information, try '--help'.
",
        false,
    ),
    (
        "arrowtab stats --workers 2 --workers 3 A",
        "error: the argument '--workers <N>' cannot be used multiple times

Usage: arrowtab stats [OPTIONS] <FILE>...

For more information, try '--help'.
",
        false,
    ),
];

#[test]
fn what_is_no_job_is_reported(rt: HostRuntime) {
    for (line, text, is_help) in &NO_JOBS {
        let is_right = tells(rt.alloc(), job_of(rt.alloc(), *line), *text, *is_help);
        assert_case(&rt, is_right, &[*line], *text);
    }
    assert!(rt; tells(rt.alloc(), job(rt.alloc(), &[]), HELP, false));
}

/// Whether there is no job, and that is reported by this text: help and the version on the output, and anything else on the error sink.
fn tells(alloc: Global, job: Result<Job, JobFault>, text: &str, is_help: bool) -> bool {
    let Err(fault) = job else {
        return false;
    };
    let (status, out, err) = if is_help {
        (0, text, "")
    } else {
        (2, "", text)
    };
    prints(alloc, &fault, status, out, err)
}

#[test]
fn other_faults_have_lines(rt: HostRuntime) {
    let (unread, no_memory) = ("arrowtab: bad arguments\n", "arrowtab: no memory\n");
    assert!(rt; prints(rt.alloc(), &JobFault::Unread, 2, "", unread));
    assert!(rt; prints(rt.alloc(), &JobFault::NoMemory, 1, "", no_memory));
}
