// What a listing has to meet, a rule for each question that the loader puts, and how to mend a listing that does not.
// Each is the one of specs/Sentences, as the contract says.
ghost use Rattle.std.specs.Prelude.{◌+◌, ◌≤◌};
ghost use Rattle.session_print.specs.Puts.{Puts};
ghost use Rattle.explain_said.specs.Sentences.{sentence_of};

use test_cases::report::put_text;

// The sentences for a question, put into lent bytes at a place; the place past them. None for other numbers.
pub fn put_sentence(out: &mut [u8], at: usize, number: u32) -> usize
    requires { at ≤ 60000 }
    ensures { Puts out.old at (sentence_of number) out.new result × (result ≤ at + 300) }
{
    match number {
        1 => put_text(
            out,
            at,
            b"The lent memories are long enough: table and machine 12,288 words each, output lists 16 each, the two input lists equally long. Mend the program that lends them; the listing is not at fault.",
        ),
        2 => put_text(
            out,
            at,
            b"Every line has its form, and the last ends in a line feed. Look for a wrong letter, a field too few or too many, a second space or tab, a leading zero, a carriage return or a blank line.",
        ),
        3 => put_text(
            out,
            at,
            b"The limits are met: 49,152 bytes, 64 routines, 512 instructions, 16 names in a routine, 4,096 pieces. Shorten the listing; the line is the first that passes a limit.",
        ),
        4 => put_text(
            out,
            at,
            b"Every name, routine, jump and argument count points to something there, and main is there with one argument r for each input and output. Compare the line with its routine's R line and with line 1; all are numbered from 0.",
        ),
        5 => put_text(
            out,
            at,
            b"Every routine has an instruction, and its last is E or G. Add the missing E or G after the line.",
        ),
        _ => at,
    }
}
