//! What the command line requests of the program.
ghost use Rattle.std.specs.Prelude.{◌≡◌, ◌↔◌, ◌<◌, IsTrue, count_by, map, option_map};
ghost use Rattle.job.specs.Jobs.{inputs_of, is_standard_input, names_of, file_of_query, text_of_query, with_query_text};

/// A command of the program.
#[derive(Debug, Drop, PartialEq, Eq)]
pub enum Command {
    /// Prints rows, workers and the statistics of each column.
    Stats,
    /// Prints the name, the type and the nullability of each column.
    Schema,
    /// Prints nothing where all files can be loaded.
    Validate,
    /// Prints so many rows from the first on, fewer where there are fewer.
    Head(u64),
    /// Prints the table as one file, with a batch for each that was added.
    Export,
    /// Prints the groups of rows that a query asks for, in this form.
    Query { query: QuerySource, output: Output },
}

/// Where the text of a query is.
#[derive(Debug, Drop, PartialEq, Eq)]
pub enum QuerySource {
    /// Here.
    Text(Vec<u8>),
    /// In the file of this name, which isn't read yet.
    File(String),
}

/// How the groups of a query are printed.
#[derive(Clone, Copy, Debug, PartialEq, Eq)]
pub enum Output {
    /// A line for each, its items as JSON with one space between.
    Lines,
    /// An array of JSON for each.
    Json,
    /// A record of CSV for each, behind one of names.
    Csv,
}

/// A command, and the files that it is about.
#[derive(Debug, Drop)]
pub struct Job {
    pub command: Command,
    /// The names of the files, as they are reported in faults: one for each source.
    pub names: Vec<String>,
    /// How many workers load the files, from 1 to 64.
    pub workers: u32,
    /// The field of the column that is added once the files are loaded, as its object of JSON.
    pub column: Option<String>,
}

impl QuerySource {
    /// The text of a query that is here; nothing of one in a file.
    pub fn text(&self) -> &[u8]
        ensures { result.now ≡ text_of_query self.now }
    {
        match self {
            QuerySource::Text(text) => text,
            QuerySource::File(_) => &[],
        }
    }
}

impl Command {
    /// The same command with this text for its query, where it asks one.
    fn with_text(self, text: Vec<u8>) -> Command
        ensures { result ≡ with_query_text text self }
    {
        match self {
            Command::Query { query: _, output } => Command::Query {
                query: QuerySource::Text(text),
                output,
            },
            other => other,
        }
    }
}

impl Job {
    /// The name of the file that the job's query is in, where it is in one.
    pub fn query_file(&self) -> Option<&str>
        ensures { option_map (λ name. name.now) result ≡ file_of_query self.now.command }
    {
        match &self.command {
            Command::Query {
                query: QuerySource::File(name),
                ..
            } => Some(name.as_str()),
            _ => None,
        }
    }

    /// The same job with this text for its query, where it asks one.
    pub fn with_query(self, text: Vec<u8>) -> Job
        ensures { result ≡ record self { command = with_query_text text self.command } }
    {
        let Job {
            command,
            names,
            workers,
            column,
        } = self;
        Job {
            command: command.with_text(text),
            names,
            workers,
            column,
        }
    }

    /// Whether more than one of the files that are read for the job is standard input.
    pub fn reads_input_twice(&self) -> bool
        ensures { IsTrue result ↔ (1 < inputs_of self.now) }
    {
        let of_query = match self.query_file() {
            Some(name) => is_standard_input(name),
            None => false,
        };
        match count_of_inputs(&self.names) {
            0 => false,
            1 => of_query,
            _ => true,
        }
    }
}

/// Whether a name stands for standard input, which no file's does.
pub fn is_standard_input(name: &str) -> bool
    ensures { result ≡ is_standard_input name.now }
{
    name == "-"
}

/// How many of the names stand for standard input.
fn count_of_inputs(names: &[String]) -> usize
    ensures { result ≡ count_by is_standard_input (names_of names.now) }
{
    names
        .iter()
        .filter(|name| is_standard_input(name.as_str()))
        .count()
}
