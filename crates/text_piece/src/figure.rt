// Figures. Document 01: "Figures are decimal without leading zeros." A figure has any length; its number stops at the cap,
// which no number that counts comes near.
ghost use Rattle.std.specs.Prelude.{◌≡◌, ◌+◌, ◌*◌, ◌<◌, ◌≤◌, min, length};
ghost use Rattle.std.proofs.Math.Seq.{slice};
ghost use Rattle.listing.specs.Bytes.{is_digit};
ghost use Rattle.text_piece.specs.Pieces.{cap, figure_answer};

// 2 to the 40.
const CAP: u64 = 1 << 40;

#[derive(Clone, Copy)]
pub enum Figure {
    Value(u64),
    Bad,
}

// The number with one digit more, or the cap.
fn append_digit(n: u64, d: u64) -> u64
    requires { (n ≤ cap) × (d < 10) }
    ensures { result ≡ min (n * 10 + d) cap }
{
    let v = n * 10 + d;
    v.min(CAP)
}

pub fn wide(b: u8) -> u64
    ensures { result ≡ b }
{
    u64::from(b)
}

pub fn is_digit(b: u8) -> bool
    ensures { result ≡ is_digit b }
{
    b.is_ascii_digit()
}

// The figure from one offset up to another.
pub fn figure_of(s: &[u8], from: usize, to: usize) -> Figure
    requires { (from ≤ to) × (to ≤ length s.now) }
    ensures { result ≡ figure_answer (slice from to s.now) }
{
    if from == to {
        return Figure::Bad;
    }
    if s[from] == b'0' {
        if from + 1 == to {
            return Figure::Value(0);
        }
        return Figure::Bad;
    }
    let mut n: u64 = 0;
    for i in from..to {
        let b = s[i];
        if !is_digit(b) {
            return Figure::Bad;
        }
        n = append_digit(n, wide(b - b'0'));
    }
    Figure::Value(n)
}
