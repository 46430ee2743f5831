// The figures of loading.
ghost use Rattle.std.specs.Prelude.{◌≡◌};
ghost use Rattle.call_figures.specs.Answers.{of_loaded};

use text_questions::Loaded;

// Document 01's number and place: 0 and 0, or the question that refuses and the line.
#[repr(C)]
#[derive(Clone, Copy)]
pub struct FabrwentLoad {
    pub number: u32,
    pub place: u64,
}

// The figures of the loader's answer.
pub fn load_figures(answer: Loaded) -> FabrwentLoad
    ensures { result ≡ of_loaded answer }
{
    match answer {
        Loaded::Done => FabrwentLoad {
            number: 0,
            place: 0,
        },
        Loaded::Refused(number, place) => FabrwentLoad {
            number: number,
            place: place as u64,
        },
    }
}
