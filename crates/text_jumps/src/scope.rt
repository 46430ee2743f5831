// What a line's names, jumps and calls may point to.
ghost use Rattle.std.specs.Prelude.{◌≡◌, ◌<◌, ◌≤◌, length};
ghost use Rattle.text_jumps.specs.Records.{call_by};

use text_fields::Gathering;

// The names and the instructions of the line's routine.
#[derive(Clone, Copy)]
pub struct Scope {
    pub names: u8,
    pub size: u16,
}

// That of a line outside every routine.
pub const NO_SCOPE: Scope = Scope { names: 0, size: 0 };

// Whether a child field's routine is there, takes so many arguments, and its names are there; `arguments` has a count for each routine.
pub fn call_is_there(g: Gathering, arguments: &[u8]) -> bool
    ensures { result ≡ call_by arguments.now g }
{
    match arguments.get(g.first as usize) {
        Some(count) => g.count == 1 + u64::from(*count) && g.others,
        None => false,
    }
}
