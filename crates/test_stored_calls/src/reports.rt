// The figures of a start or an instant call, as document 01 has them. The place is always 0.
ghost use Rattle.std.specs.Prelude.{◌≡◌};
ghost use Rattle.call_figures.specs.Figures.{result_in, DueTold};
ghost use Rattle.test_stored_calls.specs.Reports.{report_of};

use fabrwent::FabrwentCall;
use test_stored_answers::Report;

// The figures of an exported call.
pub fn report_in(ran: FabrwentCall) -> Report
    ensures { DueTold ran → result ≡ report_of (result_in ran) }
{
    Report {
        number: ran.number,
        steps: ran.steps,
        listed: ran.listed,
        due: ran.due,
    }
}
