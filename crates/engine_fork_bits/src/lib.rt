// The bits of a fork, from a table. Document 01: "A fork of n children divides its priority range by the fewest bits that number n
// children". Document 02: "Every fork takes them from a table of the answers for 1 to 8 children".
#![tactic(auto)]

ghost use Rattle.std.specs.Prelude.{◌≡◌, ◌≤◌};
ghost use Rattle.engine_fork_bits.specs.ForkBits.{NumbersFewest, fork_bits};

// The bits of 1 to 8 children, those of n at n - 1: document 001 (IV.D) has the logarithm of n to base 2, rounded up.
const FORK_BITS: [u8; 8] = [0, 1, 2, 2, 3, 3, 3, 3];

// The bits of a fork of so many children.
pub fn fork_bits(children: u32) -> u32
    requires { (1 ≤ children) × (children ≤ 8) }
    ensures bits { result ≡ fork_bits children }
    ensures rule { NumbersFewest children result }
{
    let entry = (children - 1) as usize;
    FORK_BITS[entry] as u32
}
