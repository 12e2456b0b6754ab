// Refusals, in place of the source's StoreError: a call that is turned back answers one refusal, whose number FORMAT, Refusals, lists. Of
// several that apply, a call answers the first of that list.
#![tactic(auto)]

ghost use Rattle.std.specs.Prelude.{◌≡◌};
ghost use Rattle.error.specs.Answers.{number_of};

// Why a call was turned back. The numbers are FORMAT's. 19 is retired: the stream of a page never passes the page's capacity, and no refusal
// takes that number.
#[derive(Clone, Copy, Debug, PartialEq, Eq)]
pub enum Refusal {
    // The book's shape breaks its limits.
    ShapeBad = 1,
    // The key is beyond the heads.
    KeyBeyond = 2,
    // A load meets a key in use.
    KeyInUse = 3,
    // A page buffer isn't 4,096 bytes.
    PageLength = 4,
    // A link offset isn't a multiple of 4,096.
    LinkUnaligned = 5,
    // A link index is 2^39 or more.
    LinkTooLarge = 6,
    // The first offset is asked of a page without LAST.
    NotLast = 7,
    // An extent count is 0.
    ExtentCountZero = 8,
    // An extent base is 0 or unaligned.
    ExtentBaseBad = 9,
    // More than 65,535 numbers are offered to a page, slab or load.
    TooManyOffered = 10,
    // A slab buffer is under 2 bytes.
    SlabTooShort = 11,
    // The first or only number offered is 0.
    OfferedFirstZero = 12,
    // A number offered has bit 63 set.
    OfferedBit63 = 13,
    // A book is offered 2^62 or more.
    OfferedTooLarge = 14,
    // A page's count exceeds its capacity.
    CountAboveCapacity = 15,
    // The version is another, or 0 with a count.
    VersionBad = 16,
    // The bytes end before a ULEB128 form does.
    UlebCutShort = 17,
    // A ULEB128 form overflows 64 bits.
    UlebOverflow = 18,
    // A stored first number is 0.
    StoredFirstZero = 20,
    // A stored difference is 0.
    StoredDifferenceZero = 21,
    // A stored sum passes 2^64 - 1.
    StoredSumOverflow = 22,
    // A stored number has bit 63 set.
    StoredBit63 = 23,
    // An inline head has used other than 1.
    InlineUsedNotOne = 24,
    // An inline head exceeds 2^62 - 1.
    InlineTooLarge = 25,
    // A slab head has offset above 2^40 - 1 or class above 63.
    SlabFieldTooLarge = 26,
    // An extent head is 0 or above 2^62 - 1.
    ExtentOutOfRange = 27,
    // A stored slab head has used 0 or 1.
    SlabUsedTooSmall = 28,
    // The mode is 2.
    ModeTwo = 29,
    // Mode 3 has payload 0.
    ExtentPayloadZero = 30,
    // A book key isn't sound.
    KeyUnsound = 31,
    // A number offered isn't above the one before.
    OfferedNotRising = 32,
    // What is to be written doesn't fit its destination.
    DoesNotFit = 33,
    // The lent list is too short.
    ListTooShort = 34,
    // A free head to be popped isn't a multiple of 16 (page: 4,096), or its block leaves 4,096 to the mark.
    FreeHeadBad = 35,
    // No room: the block or run would pass the body's end.
    NoRoom = 36,
    // The list that names each key's desk isn't one for the heads, or a making's reserves can't be kept.
    DesksBad = 39,
    // A take of pages would pass its desk's ceiling.
    PastCeiling = 40,
    // A take would leave fewer pages than the desks still lack of their reserves.
    IntoReserves = 41,
    // The list of freed pages can't be searched: a page leaves 4,096 to the mark, is unaligned or stands twice, or they aren't as many as
    // counted.
    FreeListBad = 42,
}

impl From<Refusal> for u32 {
    ghost from_gives = { λ refusal number. number ≡ number_of refusal };

    // The refusal's number.
    fn from(refusal: Refusal) -> u32 {
        refusal as u32
    }
}
