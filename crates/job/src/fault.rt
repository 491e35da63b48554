use thiserror::Error;

/// Why the words of the command line are no job.
#[derive(Debug, Drop, Error)]
pub enum JobFault {
    /// `clap` doesn't take the words, or they ask for help: the text is its own.
    #[error("{0}")]
    Line(clap::Error),
    /// `clap` took the words, but what it made of them is no job.
    #[error("bad arguments")]
    Unread,
    /// A query is neither there nor in a file.
    #[error("query wants --query or --query-file")]
    NoQuery,
    /// One query is there, and one in a file.
    #[error("--query and --query-file are two queries")]
    TwoQueries,
    /// What stands for `--output` is no form of it.
    #[error("--output is lines, json or csv")]
    UnknownOutput,
    /// More than one of the files is standard input.
    #[error("- is standard input, which is read once")]
    InputTwice,
    /// There was no memory to read the words.
    #[error("out of memory")]
    NoMemory,
}
