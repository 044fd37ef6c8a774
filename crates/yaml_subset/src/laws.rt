//! Laws: what follows from the definitions.
ghost use Rattle.std.specs.Prelude.{◌≤◌, ℕ, length};
ghost use Rattle.yaml_subset.specs.Document.{lines_of};
ghost use Rattle.yaml_subset.specs.Laws.{EachFaultBreaks};

/// A text has at most as many lines as bytes. So a caller that knows how long a text is knows that its lines can be numbered.
pub fn lines_are_numbered(text: &str)
    ensures { length (lines_of text.now) ≤ length text.now }
{}

/// A fault is told with the number of one of the text's lines: those before it are read, and with it they have that fault, whatever lines
/// follow.
pub fn faults_break_at_their_line(text: &str)
    ensures { (first : ℕ) → EachFaultBreaks first text.now }
{}
