ghost use Rattle.std.specs.Prelude.{◌≡◌};
ghost use Rattle.cgl_decode.specs.Records.{place, same_section};

/// The section in which a line stands.
#[derive(Clone, Copy)]
pub enum Section {
    Start,
    Name,
    Sense,
    Rows,
    Columns,
    Rhs,
    Ranges,
    Bounds,
    End,
    Unsupported,
    Unknown,
}

impl Section {
    fn place(self) -> u8
        ensures { result ≡ place self }
    {
        match self {
            Section::Start => 0,
            Section::Name => 1,
            Section::Sense => 2,
            Section::Rows => 3,
            Section::Columns => 4,
            Section::Rhs => 5,
            Section::Ranges => 6,
            Section::Bounds => 7,
            Section::End => 8,
            Section::Unsupported => 9,
            Section::Unknown => 10,
        }
    }

    /// Whether both are the same section.
    pub fn is(self, other: Section) -> bool
        ensures { result ≡ same_section self other }
    {
        self.place() == other.place()
    }
}

/// What a line of BOUNDS does.
#[derive(Clone, Copy)]
pub enum BoundKind {
    Lo,
    Li,
    Up,
    Ui,
    Fx,
    Fr,
    Mi,
    Pl,
    Bv,
}
