// The words of explain's command line: which are flags, and what each makes the next one.
#![tactic(auto)]

ghost use Rattle.std.specs.Prelude.{◌≡◌};
ghost use Rattle.explain_words.specs.Words.{letter_flag, flag_of, after_flag, held_after};

// What the next word is: a flag or a listing, or the file that a flag speaks of.
#[derive(Clone, Copy, Debug, PartialEq, Eq)]
pub enum Awaited {
    Word,
    Trace,
    Schedule,
}

// Between two arguments: the number of the listing's, if there is one yet; and what comes next.
#[derive(Clone, Copy, Debug, PartialEq, Eq)]
pub struct Held {
    pub listing: Option<usize>,
    pub awaited: Awaited,
}

// By the letter of a flag.
fn letter_flag(letter: u8) -> Awaited
    ensures { result ≡ letter_flag letter }
{
    if letter == b't' {
        return Awaited::Trace;
    }
    if letter == b's' {
        return Awaited::Schedule;
    }
    Awaited::Word
}

// What the word after this one is.
pub fn flag_of(word: &[u8]) -> Awaited
    ensures { result ≡ flag_of word.now }
{
    if word.len() != 2 {
        return Awaited::Word;
    }
    if word[0] != b'-' {
        return Awaited::Word;
    }
    letter_flag(word[1])
}

// What is held after a word that is no flag's file.
fn after_flag(k: usize, listing: Option<usize>, flag: Awaited) -> Held
    ensures { result ≡ after_flag k listing flag }
{
    match flag {
        Awaited::Word => Held {
            listing: Some(k),
            awaited: Awaited::Word,
        },
        Awaited::Trace => Held {
            listing,
            awaited: Awaited::Trace,
        },
        Awaited::Schedule => Held {
            listing,
            awaited: Awaited::Schedule,
        },
    }
}

// What is held after argument number k, this word.
pub fn held_after(k: usize, word: &[u8], held: Held) -> Held
    ensures { result ≡ held_after k word.now held }
{
    let listing = held.listing;
    let awaited = held.awaited;
    match awaited {
        Awaited::Word => after_flag(k, listing, flag_of(word)),
        Awaited::Trace => Held {
            listing,
            awaited: Awaited::Word,
        },
        Awaited::Schedule => Held {
            listing,
            awaited: Awaited::Word,
        },
    }
}
