//! The rules that can refuse, as docs/RULES.md numbers them.
ghost use Rattle.std.specs.Prelude.{◌≡◌, ◌≤◌};
ghost use Rattle.reply.specs.Rules.{rule_number};
ghost use Rattle.reply.specs.Read.{refusal};

#[derive(Clone, Copy, Debug, PartialEq, Eq, Hash)]
pub enum Rule {
    /// the atom count is 0 or above 64
    AtomCount,
    /// the bond bytes are odd in number, or more than 384
    BondBytes,
    /// a bond end is 0 or above the atom count
    BondEnd,
    /// both ends are the same atom
    SelfBond,
    /// the bond was listed before, either way round
    ListedBefore,
    /// the bond is one too many for an atom: its seventh
    SeventhBond,
    /// some pair of atoms has no path
    NoPath,
    /// the common denominator is above 1,000,000
    Denominator,
    /// a lent output is too short
    ShortOutput,
    /// x is 0, negative, above 1 or a NaN
    Argument,
    /// a record is cut off, the deck ends early, or bytes follow its last record
    RecordCut,
    /// a kind that may not stand there
    RecordKind,
    /// a payload length that is not its kind's
    PayloadLength,
    /// a block number that is 0 or used before, or a 17th block
    BlockNumber,
    /// the placement count is 0 or above 32
    PlacementCount,
    /// the placement's block is not in the deck
    UnknownBlock,
    /// the first placement has a join field that is not 0
    FirstJoin,
    /// a join atom is 0 or above its block's atom count; at place 0: no such placement or atom as was asked about
    JoinAtom,
    /// the join is one bond too many for an atom: its seventh, earlier joins counted
    SeventhJoin,
    /// the deck is longer than 32,768 bytes
    DeckLength,
    /// a byte of the neighbour text is no digit, blank, tab, CR or LF, or a number is above 999
    TextByte,
    /// the neighbour text ends before its last 0, or a number follows it
    TextEnd,
    /// a later placement has the parent 0
    NoParent,
    /// a later placement has a parent that is not earlier
    LaterParent,
    /// a line of the molfile is missing or too short
    MolfileLine,
    /// a count or a bond end of the molfile isn't blanks, then at least one digit
    MolfileNumber,
    /// a bond end of the molfile is outside its atom list
    MolfileBondEnd,
    /// the queue holds eight blocks already
    QueueFull,
    /// the queue holds a block under this number already
    QueueHolds,
    /// the queue holds no block under this number
    QueueLacks,
    /// a library's site count is 0 or above 4
    SiteCount,
    /// a site's candidate count is 0 or above 8
    CandidateCount,
    /// a site's atom was used by an earlier site
    SiteAtom,
    /// the block's bonds are not one fewer than its atoms
    NoTree,
    /// the claim is of no field, or is cut off; at place 0: no such field as was asked about
    ClaimField,
    /// there is no claim
    NoClaim,
    /// the text is no number as the rules read it
    ClaimText,
    /// the record has no such data item
    NoItem,
    /// the record has that data item twice
    TwoItems,
}

impl Rule {
    /// Its number in the table.
    pub fn number(self) -> u8
        ensures { result ≡ rule_number self }
    {
        match self {
            Rule::AtomCount => 1,
            Rule::BondBytes => 2,
            Rule::BondEnd => 3,
            Rule::SelfBond => 4,
            Rule::ListedBefore => 5,
            Rule::SeventhBond => 6,
            Rule::NoPath => 7,
            Rule::Denominator => 8,
            Rule::ShortOutput => 9,
            Rule::Argument => 10,
            Rule::RecordCut => 11,
            Rule::RecordKind => 12,
            Rule::PayloadLength => 13,
            Rule::BlockNumber => 14,
            Rule::PlacementCount => 15,
            Rule::UnknownBlock => 16,
            Rule::FirstJoin => 17,
            Rule::JoinAtom => 18,
            Rule::SeventhJoin => 19,
            Rule::DeckLength => 20,
            Rule::TextByte => 21,
            Rule::TextEnd => 22,
            Rule::NoParent => 23,
            Rule::LaterParent => 24,
            Rule::MolfileLine => 25,
            Rule::MolfileNumber => 26,
            Rule::MolfileBondEnd => 27,
            Rule::QueueFull => 28,
            Rule::QueueHolds => 29,
            Rule::QueueLacks => 30,
            Rule::SiteCount => 31,
            Rule::CandidateCount => 32,
            Rule::SiteAtom => 33,
            Rule::NoTree => 34,
            Rule::ClaimField => 35,
            Rule::NoClaim => 36,
            Rule::ClaimText => 37,
            Rule::NoItem => 38,
            Rule::TwoItems => 39,
        }
    }
}

impl Rule {
    /// Refused by this rule, at a place.
    pub fn at(self, place: usize) -> super::Refusal
        ensures { result ≡ refusal (rule_number self) place }
    {
        super::Refusal {
            number: usize::from(self.number()),
            place,
        }
    }
}
