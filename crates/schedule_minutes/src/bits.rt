// The minutes of a week while they are walked through: the next one, and an input's bit.
ghost use Rattle.std.specs.Prelude.{◌≡◌, ◌+◌, ◌/◌, ◌%◌, ◌^◌, ◌<◌};

// The last minute of a week.
const LAST: usize = 10079;

// The next minute of the week.
pub fn next_minute(minute: usize) -> usize
    requires { minute < 10080 }
    ensures { result ≡ (minute + 1) % 10080 }
{
    if minute == LAST {
        return 0;
    }
    minute + 1
}

// Whether an input is open in a minute with these bits.
pub fn bit_of(bits: u16, input: u64) -> u16
    requires { input < 16 }
    ensures { result ≡ bits / 2 ^ input % 2 }
{
    (bits >> input) % 2
}
