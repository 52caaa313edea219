// Why a call is turned back: a case for each word of document 01's table, and for those that document 02 adds, with
// the place that it names.
#![tactic(auto, unfolding(crate::specs::Refusal::found, crate::specs::Refusal::refuse, crate::specs::Refusal::number_of, crate::specs::Refusal::place_of))]

ghost use Rattle.std.specs.Prelude.{◌≡◌, ◌<◌};
ghost use Rattle.shape.specs.Refusal.{number_of, place_of, fine, found, refuse};

#[derive(Clone, Copy, PartialEq, Eq, Debug)]
pub enum Refusal {
    // The limit that a list or a result is past.
    Oversize(usize),
    // The list's position in the call.
    Ragged(usize),
    // The count wanted, in the output's elements.
    ShortOutput(usize),
    // The first unfit word, or the length of an index that is short.
    ForeignIndex(usize),
    // The first bad record.
    BadRecord(usize),
    // The first byte at which no verdict's sentence goes on so, or how many bytes there are.
    NotAVerdict(usize),
    // The part of a joining, 0 or 1, whose normals and vertices differ in count.
    OddNormals(usize),
    // The place of the first index past its own part's vertices, in the two index lists laid end to end.
    LooseCorner(usize),
}

impl Refusal {
    // Its number in the table.
    pub fn number(self) -> u32
        ensures { (result ≡ number_of self) × (result < 9) }
    {
        match self {
            Refusal::Oversize(_) => 1,
            Refusal::Ragged(_) => 2,
            Refusal::ShortOutput(_) => 3,
            Refusal::ForeignIndex(_) => 4,
            Refusal::BadRecord(_) => 5,
            Refusal::NotAVerdict(_) => 6,
            Refusal::OddNormals(_) => 7,
            Refusal::LooseCorner(_) => 8,
        }
    }

    // The place that it names.
    pub fn place(self) -> usize
        ensures { result ≡ place_of self }
    {
        match self {
            Refusal::Oversize(limit) => limit,
            Refusal::Ragged(list) => list,
            Refusal::ShortOutput(wanted) => wanted,
            Refusal::ForeignIndex(word) => word,
            Refusal::BadRecord(record) => record,
            Refusal::NotAVerdict(byte) => byte,
            Refusal::OddNormals(part) => part,
            Refusal::LooseCorner(place) => place,
        }
    }
}

// One test of a call: a check reads as its definition does, a test to a line, each passed on by `?`.
pub fn refuse_if(bad: bool, r: Refusal) -> Result<(), Refusal>
    ensures { found result ≡ refuse bad (number_of r) (place_of r) fine }
{
    if bad { Err(r) } else { Ok(()) }
}
