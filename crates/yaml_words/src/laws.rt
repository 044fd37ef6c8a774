//! Laws: what follows from the definitions.
ghost use Rattle.std.specs.Prelude.{ℕ};
ghost use Rattle.yaml_words.specs.Faults.{IsOnLine};
ghost use Rattle.yaml_words.specs.FlowNodes.{flow_node};
ghost use Rattle.yaml_words.specs.Keys.{key};
ghost use Rattle.yaml_words.specs.Written.{ScalarsReadBack, KeysReadBack};

/// Each fault of what stands on a line, and each fault of a key, is told with the number of that line.
pub fn faults_have_their_line(text: &str)
    ensures node { (levels line : ℕ) → IsOnLine line (flow_node levels line text.now) }
    ensures key { (line : ℕ) → IsOnLine line (key line text.now) }
{}

/// A scalar or a key that is written in its one form is read as it was.
pub fn written_is_read_back()
    ensures scalars { ScalarsReadBack }
    ensures keys { KeysReadBack }
{}
