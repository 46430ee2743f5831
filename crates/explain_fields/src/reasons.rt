// The reasons why a listing does not load (document 01, "The listing", "Limits" and "The questions").
ghost use Rattle.std.specs.Prelude.{◌≡◌};
ghost use Rattle.explain_fields.specs.Fields.{about};

// What is strange in a text, whatever it should hold: nothing is there ("fields parted by one tab .., pieces inside a field by one space"), a carriage return
// ("each line closed by a line feed"), a byte that is not ASCII ("Plain ASCII"), or spaces for tabs.
#[derive(Clone, Copy, Debug, PartialEq, Eq)]
pub enum Strange {
    Nothing,
    CarriageReturn,
    NotAscii,
    SpacesForTabs,
}

// Why a listing does not load.
#[derive(Clone, Copy, Debug, PartialEq, Eq)]
pub enum Reason {
    // question 2: a line's form
    Strange(Strange),
    // the letters of the records
    NoSuchLetter,
    FieldCount,
    // "forks 1 to 8 children"
    ChildCount,
    // "Figures are decimal without leading zeros."
    BadFigure,
    SecondPiece,
    // "a letter per argument, `r` by reference or `v` by value, or is `-` for none"
    BadKinds,
    // "the pieces `#v` (a signed 32-bit literal), `n` (a name's value), `@n` .., `+ - * <`"; document 02: "Expressions gain `/` and `%`"
    BadPiece,
    // "It leaves one value and never holds more than 8; both belong to its form."
    LacksOperand,
    NinthValue,
    LeavesSeveral,
    // "waits on 1 to 4 names"
    FifthName,
    // "By form `P` stands on line 1 only, and line 2, if any, is an `R`."
    PortsLater,
    FirstLine,
    SecondLine,
    // "does the last end in a line feed? An empty listing: place 1."
    NoLineFeed,
    EmptyListing,
    // question 3: "listing 49,152 bytes; 64 routines; 512 instructions in all; 16 names a routine; 4,096 pieces"
    ManyBytes,
    ManyRoutines,
    ManyNames,
    ManyInstructions,
    ManyPieces,
    // question 5: "Has every routine a line .., the last being `E` or `G`?"
    NoInstruction,
    NoEnd,
    // question 4: "Does every name, routine, jump and argument count point to something there? Is main as stated ..?"; with how many there are
    NoName(usize),
    NoJump(usize),
    NoRoutine(usize),
    ArgumentCount,
    // "routine 0 is main"; "Main has i + o arguments, all `r`"
    NoMain,
    MainAsStated,
}

// Where in its line a reason applies: to all of it, a field, or a piece in a field, by their numbers from 1.
#[derive(Clone, Copy, Debug, PartialEq, Eq)]
pub enum Spot {
    Line,
    Field(usize),
    Piece(usize, usize),
}

// What is wrong in a line.
#[derive(Clone, Copy)]
pub struct Fault<R> {
    pub why: R,
    pub spot: Spot,
}

// A reason that is about a whole line.
pub fn about<R>(why: R) -> Fault<R>
    ensures { result ≡ about why }
{
    Fault {
        why,
        spot: Spot::Line,
    }
}
