//! The commands of the program, as `clap` reads them.
ghost use Rattle.std.specs.Prelude.{◌≡◌, IfOk, false};
ghost use Rattle.clap.specs.Words.{app_of, rule_of};
ghost use Rattle.job.specs.CommandLine.{alone, arrowtab, column, files, output, over_files, query, query_file, row_limit, with_command, with_head, with_query, workers};
ghost use Rattle.clap.specs.declared.builder.command.Command.TheViews.{out-Command};

use clap::{Arg, Command, value_parser};
use std::alloc::{AllocError, Global};

/// What `--version` prints behind the program's name: the version, its date, and the kit that proves it.
const VERSION: &str = "0.1.0 (2026-11-30, rattle-kit-13f)";

/// What stands at the end of the help of each command.
const STATS_HELP: &str = "\
Output: the rows; of each worker its calls and rows; of each column its name, type, rows, nulls, sum,
least and greatest, and - where its type has none.

Example: arrowtab stats --workers 2 january.json february.json";

const SCHEMA_HELP: &str = "\
Output: of each column its name, its type as the table stores it, and whether it may hold nulls.

Example: arrowtab schema cities.json";

const VALIDATE_HELP: &str = "\
Output: none. The status says whether all files can be loaded into one table; if not, the fault is reported.

Example: arrowtab validate january.json february.json";

const HEAD_HELP: &str = "\
Output: of each row an object of JSON, whose members are the columns. Where fewer rows are there, all of
them are printed.

Example: arrowtab head -n 3 cities.json";

const EXPORT_HELP: &str = "\
Output: an object of JSON with the schema, the batches as they were loaded, and a dictionary for each
column of texts.

Example: arrowtab export cities.json > table.json";

const QUERY_HELP: &str = "\
A query is an object of JSON with the members filter (an expression), by (an array of up to 4 names of
columns) and aggs (an array of aggregates), each of which may be absent. Other members are passed over.

Expressions E:
  {\"column\":\"n\"}  {\"int\":5}  {\"text\":\"s\"}
  {\"op\":OP,\"args\":[E,E]}  add sub mul, of two integers of one type
                          eq ne lt le gt ge, of two integers of one type, truth values or texts
                          and or, of two truth values
  {\"op\":OP,\"args\":[E]}    not, of a truth value; is_null, of anything

Aggregates:
  {\"agg\":\"rows\"}  {\"agg\":AGG,\"column\":\"n\"}  AGG is count, sum, least or greatest

Output: of each group, in order of first appearance, the items of its key and then its aggregates, as JSON;
with --output csv as CSV, behind a record of names.

Examples:
  arrowtab query --query '{\"by\":[\"city\"],\"aggs\":[{\"agg\":\"rows\"}]}' cities.json
  arrowtab query --query '{\"filter\":{\"op\":\"lt\",\"args\":[{\"column\":\"people\"},{\"int\":5}]},\"by\":[\"city\"]}' cities.json";

/// The program: a command has to be there.
pub(crate) fn arrowtab<'a>(alloc: Global) -> Result<Command<'a>, AllocError>
    ensures { IfOk result (λ command. app_of command ≡ arrowtab) }
{
    let program = alone(alloc);
    let with_stats = with_command(
        alloc,
        program,
        "stats",
        "Print rows, nulls, sum, least and greatest of each column",
        STATS_HELP,
    )?;
    let with_schema = with_command(
        alloc,
        with_stats,
        "schema",
        "Print name, type and nullability of each column",
        SCHEMA_HELP,
    )?;
    let with_validate = with_command(
        alloc,
        with_schema,
        "validate",
        "Print nothing where all files make one table, else the first fault",
        VALIDATE_HELP,
    )?;
    let head = with_head(alloc)?;
    let with_rows = with_validate.subcommand(head)?;
    let with_export = with_command(
        alloc,
        with_rows,
        "export",
        "Print the table as one file, each text once in its dictionary",
        EXPORT_HELP,
    )?;
    let query = with_query(alloc)?;
    with_export.subcommand(query)
}

/// The program without its commands.
fn alone<'a>(alloc: Global) -> Command<'a>
    ensures { app_of result ≡ alone }
{
    let bare = Command::new(alloc, "arrowtab");
    let described = bare.about(
        "Tells what files in Apache Arrow's JSON integration format hold, as one table",
    );
    let explained = described.after_help(
        "Exit status: 0 if all was done; 1 for a fault in a file, the query, the column, the output or memory;\n2 for a mistake in the arguments.",
    );
    let required = explained.subcommand_required(true);
    let helpful = required.arg_required_else_help(true);
    helpful.version(VERSION)
}

/// The program with a command over files behind those that it has.
fn with_command<'a>(
    alloc: Global,
    program: Command<'a>,
    name: &'a str,
    about: &'a str,
    example: &'a str,
) -> Result<Command<'a>, AllocError>
    ensures { IfOk result (λ command. app_of command ≡ with_command (app_of program.entry) name.now) }
{
    let command = over_files(alloc, name, about, example)?;
    program.subcommand(command)
}

/// `head -n ROWS --workers N --add-column FIELD FILE..`
fn with_head<'a>(alloc: Global) -> Result<Command<'a>, AllocError>
    ensures line { IfOk result (λ command. app_of command ≡ with_head) }
    ensures local { IfOk result (λ command. (out-Command command).has_globals ≡ false) }
{
    let rows = rows(alloc);
    let over = over_files(
        alloc,
        "head",
        "Print the first rows, each as an object of JSON",
        HEAD_HELP,
    )?;
    over.arg(rows)
}

/// `query --query QUERY --query-file FILE --output FORMAT --workers N --add-column FIELD FILE..`
fn with_query<'a>(alloc: Global) -> Result<Command<'a>, AllocError>
    ensures line { IfOk result (λ command. app_of command ≡ with_query) }
    ensures local { IfOk result (λ command. (out-Command command).has_globals ≡ false) }
{
    let query = query(alloc);
    let over = over_files(
        alloc,
        "query",
        "Print a line for each group of rows, as a query asks",
        QUERY_HELP,
    )?;
    let asked = over.arg(query)?;
    let from_file = query_file(alloc);
    let either = asked.arg(from_file)?;
    either.arg(output(alloc))
}

/// `NAME --workers N --add-column FIELD FILE..`
fn over_files<'a>(
    alloc: Global,
    name: &'a str,
    about: &'a str,
    example: &'a str,
) -> Result<Command<'a>, AllocError>
    ensures line { IfOk result (λ command. app_of command ≡ over_files name.now) }
    ensures local { IfOk result (λ command. (out-Command command).has_globals ≡ false) }
{
    let files = files(alloc);
    let workers = workers(alloc);
    let bare = Command::new(alloc, name);
    let described = bare.about(about);
    let explained = described.after_help(example);
    let over = explained.arg(files)?;
    let by_workers = over.arg(workers)?;
    by_workers.arg(column(alloc))
}

/// `--add-column FIELD`
fn column<'a>(alloc: Global) -> Arg<'a>
    ensures rule { rule_of result ≡ column }
    ensures local { result.global ≡ false }
{
    let field = Arg::new(alloc, "FIELD");
    let named = field.long("add-column");
    named.help(
        "A column to add once the files are loaded, null in each row: a field as an object of JSON",
    )
}

/// `--query QUERY`
fn query<'a>(alloc: Global) -> Arg<'a>
    ensures rule { rule_of result ≡ query }
    ensures local { result.global ≡ false }
{
    let query = Arg::new(alloc, "QUERY");
    let named = query.long("query");
    named.help("The query, an object of JSON with the members filter, by and aggs")
}

/// `--query-file FILE`
fn query_file<'a>(alloc: Global) -> Arg<'a>
    ensures rule { rule_of result ≡ query_file }
    ensures local { result.global ≡ false }
{
    let file = Arg::new(alloc, "QUERY_FILE");
    let named = file.long("query-file");
    let called = named.value_name("FILE");
    called.help("The file that the query is in, in place of --query")
}

/// `-n ROWS`
fn rows<'a>(alloc: Global) -> Arg<'a>
    ensures rule { rule_of result ≡ row_limit }
    ensures local { result.global ≡ false }
{
    let rows = Arg::new(alloc, "ROWS");
    let named = rows.short('n');
    let described = named.help("How many rows are printed");
    let defaulted = described.default_value("10");
    defaulted.value_parser(value_parser!(u64))
}

/// `--output FORMAT`
fn output<'a>(alloc: Global) -> Arg<'a>
    ensures rule { rule_of result ≡ output }
    ensures local { result.global ≡ false }
{
    let format = Arg::new(alloc, "FORMAT");
    let named = format.long("output");
    let described = named.help("How groups are printed: as lines, json or csv");
    described.default_value("lines")
}

/// `FILE..`, at least one.
fn files<'a>(alloc: Global) -> Arg<'a>
    ensures rule { rule_of result ≡ files }
    ensures local { result.global ≡ false }
{
    let file = Arg::new(alloc, "FILE");
    let described = file.help(
        "Files of one table, which has the first one's schema; - is standard input",
    );
    let required = described.required(true);
    required.num_args(1..)
}

/// `--workers N`, from 1 to 64.
fn workers<'a>(alloc: Global) -> Arg<'a>
    ensures rule { rule_of result ≡ workers }
    ensures local { result.global ≡ false }
{
    let number = Arg::new(alloc, "N");
    let named = number.long("workers");
    let described = named.help(
        "How many workers load the files and answer the query at once, from 1 to 64",
    );
    let defaulted = described.default_value("1");
    let numbers = value_parser!(u32);
    let few = numbers.range(1..=64);
    defaulted.value_parser(few)
}
