// Figures of a trace: of 64 bits, of 32 bits, and signed of 32 bits.
ghost use Rattle.std.specs.Prelude.{◌≡◌, ◌+◌, ◌*◌, ◌<◌, ◌≤◌, length};
ghost use Rattle.std.proofs.Math.Seq.{slice};
ghost use Rattle.session_trace_lines.specs.Figures.{below_answer, value_answer, appended};

use text_piece::is_digit;

// The largest numbers of 64 and of 32 bits.
pub const MOST_64: u64 = 18446744073709551615;

pub const MOST_32: u64 = 4294967295;

// The largest signed value of 32 bits, and the largest after a minus.
const MOST_PLAIN: u64 = 2147483647;

const MOST_NEGATED: u64 = 2147483648;

// 2 to the 32: -n is the word that lies n below it.
const SIZE: u64 = 4294967296;

// A number within a bound, or none.
#[derive(Clone, Copy)]
pub enum Bounded {
    Value(u64),
    Bad,
}

// The number with one digit more, if it has 64 bits.
fn append_digit(n: u64, d: u64) -> Option<u64>
    requires { d < 10 }
    ensures { result ≡ appended (n * 10 + d) }
{
    n.checked_mul(10)?.checked_add(d)
}

// The figure from one offset up to another, if its number is at most `most`.
pub fn figure_up_to(s: &[u8], from: usize, to: usize, most: u64) -> Bounded
    requires { (from ≤ to) × (to ≤ length s.now) }
    ensures { result ≡ below_answer (most + 1) (slice from to s.now) }
{
    if from == to {
        return Bounded::Bad;
    }
    if s[from] == b'0' {
        if from + 1 == to {
            return Bounded::Value(0);
        }
        return Bounded::Bad;
    }
    let mut n: u64 = 0;
    for i in from..to {
        let b = s[i];
        if !is_digit(b) {
            return Bounded::Bad;
        }
        let Some(more) = append_digit(n, u64::from(b - b'0')) else {
            return Bounded::Bad;
        };
        n = more;
    }
    if n > most {
        return Bounded::Bad;
    }
    Bounded::Value(n)
}

// A signed figure of 32 bits, as its word.
pub fn value_of(s: &[u8], from: usize, to: usize) -> Bounded
    requires { (from ≤ to) × (to ≤ length s.now) }
    ensures { result ≡ value_answer (slice from to s.now) }
{
    if from == to {
        return Bounded::Bad;
    }
    if s[from] == b'-' {
        let Bounded::Value(n) = figure_up_to(s, from + 1, to, MOST_NEGATED) else {
            return Bounded::Bad;
        };
        if n < 1 {
            return Bounded::Bad;
        }
        return Bounded::Value(SIZE - n);
    }
    figure_up_to(s, from, to, MOST_PLAIN)
}
