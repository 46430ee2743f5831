// The answer of a call.
ghost use Rattle.std.specs.Prelude.{◌≡◌};
ghost use Rattle.windows.specs.Call.{refusal};

// Number, place, and how many inputs are listed, as C takes them (include/fabrwent.h); a refusal's place and count are 0.
#[repr(C)]
#[derive(Clone, Copy)]
pub struct Listed {
    pub number: u32,
    pub place: u32,
    pub listed: u64,
}

// A refusal.
pub fn refused(number: u32) -> Listed
    ensures { result ≡ refusal number }
{
    Listed {
        number,
        place: 0,
        listed: 0,
    }
}

// "A call that goes through has number 0" (document 01).
pub fn gone_through(listed: u64) -> Listed
    ensures { result ≡ record { number = 0; place = 0; listed = listed } }
{
    Listed {
        number: 0,
        place: 0,
        listed,
    }
}
