//! What a call asks for.

use opl_list::Seq;

/// What `solve` asks of its search.
#[derive(Clone, Copy)]
pub struct Searching {
    /// How many choices there may be: 1 to `2^63 - 1`.
    pub budget: u64,
    /// How many solutions are wanted, where not all are: 1 to `2^63 - 1`.
    pub limit: Option<u64>,
    /// Whether each solution that improves on the ones before is wanted, and not the best alone.
    pub is_improving: bool,
}

/// What is done with a model and its data.
#[derive(Clone, Copy)]
pub enum Command {
    /// Its solutions.
    Solve(Searching),
    /// The text of its ground core.
    Ground,
}

/// A command, the name of the model's file, and those of the data files.
#[derive(Drop)]
pub struct FilesRequest<'a> {
    pub command: Command,
    pub model: &'a str,
    pub files: Seq<&'a str>,
}

/// Which models are generated.
#[derive(Clone, Copy)]
pub enum Kind {
    /// Queens on a board that don't attack one another.
    Queens,
    /// Activities, each of which ends before the next begins.
    Chain,
}

/// A model that is generated.
#[derive(Clone, Copy)]
pub struct Generated {
    pub kind: Kind,
    /// How large it is: of a call 1 to 1,000.
    pub size: u64,
    /// From what its numbers are drawn: of a call at most `2^63 - 1`.
    pub seed: u64,
}

/// What a call asks for.
#[derive(Drop)]
pub enum Request<'a> {
    /// A command over files.
    OverFiles(FilesRequest<'a>),
    /// The text of a generated model.
    Generate(Generated),
    /// The words that calls have.
    Help,
}
