// Question 2, after a look at the opening bytes. Document 01: "The file begins with the bytes `P`, tab".
ghost use Rattle.std.specs.Prelude.{◌≡◌};
ghost use Rattle.listing.specs.Questions.{place2};
ghost use Rattle.text_records.specs.Lines.{some_place};
ghost use Rattle.text_questions.specs.Opening.{begins_with};

use text_records::form_place;

// Whether a text begins with these bytes.
pub fn begins_with(s: &[u8], opening: &[u8]) -> bool
    ensures { result ≡ begins_with opening.now s.now }
{
    s.starts_with(opening)
}

// The first line out of form, if there is one. A text that opens otherwise is out of form on line 1.
pub fn form_question(s: &[u8]) -> Option<usize>
    ensures { result ≡ some_place (place2 s.now) }
{
    if begins_with(s, b"P\t") {
        return form_place(s);
    }
    Some(1)
}
