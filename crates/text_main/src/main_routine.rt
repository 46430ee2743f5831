// Whether main is as stated, where the pass of question 4 is. Document 01: "Main has i + o arguments, all `r`".
ghost use Rattle.std.specs.Prelude.{◌≡◌};
ghost use Rattle.text_main.specs.Stated.{is_stated};

// Where the pass is: the inputs and outputs, whether main is still to come, and the names and instructions of the routine.
#[derive(Clone, Copy)]
pub struct Here {
    pub inputs: u64,
    pub outputs: u64,
    pub unopened: bool,
    pub names: u8,
    pub size: u16,
}

// Whether an `R` is main's as stated: "Main has i + o arguments, all `r`".
pub fn is_stated(here: Here, arguments: u64, stated: bool) -> bool
    ensures { result ≡ is_stated here arguments stated }
{
    if !here.unopened {
        return true;
    }
    if arguments < here.inputs {
        return false;
    }
    if arguments - here.inputs == here.outputs {
        return stated;
    }
    false
}
