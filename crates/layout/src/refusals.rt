// The rows of the table of refusals, each named once, with its number.
ghost use Rattle.std.specs.Prelude.{◌≡◌};
ghost use Rattle.layout.specs.Refusals.{number_of, no_of};

// Why a call is refused: a row of the table.
#[derive(Clone, Copy, Debug, PartialEq, Eq)]
pub enum Refusal {
    // The builder's blocks are too many, or they or the last key don't fit the lent areas.
    AreaBad = 1,
    // A key is longer than the longest one.
    KeyLong = 2,
    // A block ends before it starts, or its end or its ordinal is too large.
    NumbersBad = 3,
    // A block doesn't start where the one before it ends.
    JoinBad = 4,
    // A block's ordinal isn't above the one before it.
    OrdinalBad = 5,
    // A key isn't above the last separator.
    KeyBad = 6,
    // One more block doesn't fit, or a slice has more blocks than an index can.
    RoomBad = 7,
    // A block in the lent areas breaks the rules that adding it would have tested.
    ListBad = 8,
    // The output is shorter than what is to be written.
    OutShort = 9,
    // The file is shorter than its footer, or than the directory that the footer names.
    FileShort = 10,
    // The footer names a directory of no bytes.
    NoDirectory = 11,
    // The directory's count, offsets, key lengths or own length are wrong.
    DirectoryBad = 12,
    // A key of the directory isn't above the one before it.
    KeysUnsorted = 13,
    // The group records' length isn't that of the groups, or they reach beyond the store.
    RecordsBad = 14,
    // A group has a width or a count that can't be, or fields beyond the address bytes.
    GroupBad = 15,
    // A value in the store is out of range, or a block doesn't follow from the one before it.
    BlockBad = 16,
    // No block has the id.
    UnknownId = 17,
    // The ordinal is below the first block's.
    OrdinalBelow = 18,
    // The key is above the last separator.
    KeyAbove = 19,
    // The opened record and the bytes don't belong together.
    Unfit = 20,
    // The automaton's count of states is out of range, or its length isn't theirs.
    TableBad = 21,
    // A flag of the automaton is neither 0 nor 1.
    FlagBad = 22,
    // A next state isn't one of the automaton's.
    StateBad = 23,
    // The bytes lent for the marks, or for the example, are too few.
    RoomShort = 24,
    // The interval has no string that the automaton accepts.
    NoExample = 25,
    // A list of keys is of an odd length, too long, not sorted by offset or reaches beyond its bytes, or the ids' room is too short.
    KeyListBad = 26,
    // The file opens, but isn't the one that finish makes from the blocks and separators read in it.
    NotCanonical = 27,
    // The number of terms isn't above the last block's first ordinal.
    TermsBad = 28,
    // The ordinal is at or above the number of terms.
    OrdinalAbove = 29,
    // No index has the version.
    VersionBad = 30,
}

// The table's number.
impl From<Refusal> for u32 {
    ghost from_gives = { λ refusal no. no ≡ number_of refusal };

    fn from(refusal: Refusal) -> u32 {
        refusal as u32
    }
}

// The number of an answer: the refusal's, or 0 where the call isn't refused.
pub fn number<T: Drop>(answer: Result<T, Refusal>) -> u32
    ensures { result ≡ no_of answer }
{
    answer.err().map_or(0, u32::from)
}
