//! Kinds of targets, with their codes and names.
ghost use Rattle.std.specs.Prelude.{◌≡◌, bytes_eq};
ghost use Rattle.target_tree.specs.Kinds.{TheKind, kind_code, name_of};

/// How the text of a target is read. The codes and names are this project's own.
#[derive(Clone, Copy, Debug, PartialEq, Eq)]
pub enum Kind {
    /// A glob of ids.
    Glob,
    /// A pattern of ids.
    Pcre,
    /// Ids joined by commas.
    List,
    /// A glob of grains.
    Grain,
    /// A pattern of grains.
    GrainPcre,
    /// A glob of the pillar.
    Pillar,
    /// A pattern of the pillar.
    PillarPcre,
    /// The name of a nodegroup.
    Nodegroup,
    /// Leaves joined by `and`, `or`, `not` and parentheses.
    Compound,
}

// Each kind, in the order of the codes.
const KINDS: [Kind; 9] = [
    Kind::Glob,
    Kind::Pcre,
    Kind::List,
    Kind::Grain,
    Kind::GrainPcre,
    Kind::Pillar,
    Kind::PillarPcre,
    Kind::Nodegroup,
    Kind::Compound,
];

impl Kind {
    // The row of the table: the code and the name.
    fn row(self) -> (u8, &'static str)
        ensures code { result.0 ≡ kind_code self }
        ensures name { result.1.now ≡ name_of self }
    {
        match self {
            Kind::Glob => (1, "glob"),
            Kind::Pcre => (2, "pcre"),
            Kind::List => (3, "list"),
            Kind::Grain => (4, "grain"),
            Kind::GrainPcre => (5, "grain_pcre"),
            Kind::Pillar => (6, "pillar"),
            Kind::PillarPcre => (7, "pillar_pcre"),
            Kind::Nodegroup => (8, "nodegroup"),
            Kind::Compound => (9, "compound"),
        }
    }

    /// The kind that has this name, if there is one.
    pub fn read(name: &str) -> Option<Kind>
        ensures { TheKind (λ kind. name_of kind ≡ name.now) result }
    {
        for kind in KINDS {
            if kind.has_name(name) {
                return Some(kind);
            }
        }
        None
    }

    /// The name in texts.
    pub fn name(self) -> &'static str
        ensures { result.now ≡ name_of self }
    {
        self.row().1
    }

    fn has_name(self, name: &str) -> bool
        ensures { result ≡ bytes_eq (name_of self) name.now }
    {
        self.name() == name
    }

    /// The code in bytes, 1 to 9.
    pub fn code(self) -> u8
        ensures { result ≡ kind_code self }
    {
        self.row().0
    }

    /// The kind that has this code, if there is one.
    pub fn of(code: u8) -> Option<Kind>
        ensures { TheKind (λ kind. kind_code kind ≡ code) result }
    {
        for kind in KINDS {
            if kind.code() == code {
                return Some(kind);
            }
        }
        None
    }
}
