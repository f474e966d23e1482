//! What is shown of a module.
ghost use Rattle.std.specs.Prelude.{◌≡◌};

/// What to show of a module.
#[derive(Clone, Copy, Debug, PartialEq, Eq)]
pub enum View {
    /// The readable text, as [`module_text_compared`](naga_text::module_text_compared) writes it: each return that passes
    /// inserted is marked.
    Text,
    /// The graph for Graphviz, as [`module_dot_compared`](crate::module_dot_compared) writes it: each return that passes
    /// inserted is green.
    Dot,
    /// The report: lines as [`report`](crate::report) writes them, or JSON as [`findings_json`](crate::findings_json)
    /// writes it, and a newline.
    Report(Extent, Format),
}

impl View {
    ghost use Rattle.naga_look.specs.View.{compares};

    /// Returns whether the view compares the module with the one that was read.
    pub(crate) fn compares(self) -> bool
        ensures { result ≡ compares self }
    {
        match self {
            View::Text => true,
            View::Dot => true,
            View::Report(_, _) => false,
        }
    }
}

/// How many faults and notes a report lists.
#[derive(Clone, Copy, Debug, PartialEq, Eq)]
pub enum Extent {
    /// At most 20 faults of the types of a function, and as many notes of a kind.
    Short,
    /// All of them.
    Full,
}

impl Extent {
    ghost use Rattle.naga_look.specs.Report.{limit_of};

    /// Returns the greatest number of faults of the types of a function, and of notes of a kind on it.
    pub(crate) fn limit(self) -> usize
        ensures { result ≡ limit_of self }
    {
        match self {
            Extent::Short => 20,
            Extent::Full => usize::MAX,
        }
    }
}

/// How a report is written.
#[derive(Clone, Copy, Debug, PartialEq, Eq)]
pub enum Format {
    /// As lines for people.
    Lines,
    /// As a JSON array of the findings.
    Json,
}

/// What is shown of a module.
#[derive(Debug, Drop)]
pub struct Shown {
    /// The text. It ends in a newline, unless it is empty.
    pub text: String,
    /// The number of faults in a report, and 0 for any other text.
    pub faults: usize,
}
