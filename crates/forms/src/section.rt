ghost use Rattle.std.specs.Prelude.{◌≡◌};
ghost use Rattle.forms.specs.Sections.{letter_of, most_of};

// The sections of a margin file, in their order.
#[derive(Clone, Copy, PartialEq, Eq, Debug)]
pub enum Section {
    Head,
    Instruments,
    Contracts,
    Accounts,
    Openings,
    Limits,
    Risks,
    Ranges,
    Credits,
    Calls,
}

impl Section {
    // How many lines it may have.
    pub fn most(self) -> u32
        ensures { result ≡ most_of self }
    {
        match self {
            Section::Head => 1,
            Section::Instruments => 8,
            Section::Accounts => 32,
            Section::Contracts | Section::Limits => 128,
            Section::Risks => 256,
            Section::Ranges | Section::Credits => 64,
            Section::Openings | Section::Calls => 4_096,
        }
    }
}

// The letter of its contents line.
impl From<Section> for u8 {
    ghost from_gives = { λ section letter. letter ≡ letter_of section };

    fn from(section: Section) -> u8 {
        match section {
            Section::Head => b'H',
            Section::Instruments => b'I',
            Section::Contracts => b'C',
            Section::Accounts => b'A',
            Section::Openings => b'O',
            Section::Limits => b'L',
            Section::Risks => b'R',
            Section::Ranges => b'K',
            Section::Credits => b'X',
            Section::Calls => b'E',
        }
    }
}
