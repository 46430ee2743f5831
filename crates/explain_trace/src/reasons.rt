// The reasons why a session does not play a trace to its end (document 01, "The session").
use explain_fields::Strange;

#[derive(Clone, Copy, Debug, PartialEq, Eq)]
pub enum Reason {
    // code 2: "A line out of form when it is reached, one after `Q`, or no `Q` at the end"; "in the listing's style"
    Strange(Strange),
    // "lines `I|time|input|value` .. and last `Q|time`"
    NoSuchLetter,
    FieldCount,
    // "(64, 32 and signed 32 bits)"
    BadTime,
    BadInput,
    BadValue,
    SecondPiece,
    // out of form, and no reason above applies
    NoForm,
    // "each line closed by a line feed"
    NoLineFeed,
    // "no `Q` at the end"
    NoLast,
    // "one after `Q`"
    AfterLast,
    // code 9: "Is t after the present moment?", with the time that is to be passed
    NotAfter(u64),
    // code 11: "Are the input numbers below i and strictly rising?", with the number of inputs, and the least number
    NoInput(u64),
    NotRising(u64),
}
