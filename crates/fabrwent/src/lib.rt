// The library's calls, as a program in C or Rust has them (include/fabrwent.h; `fabrwent_c` exports them).
// No call asks anything of its caller; each takes any memory, and ends.
#![tactic(auto)]

pub mod calls;
pub mod loading;
pub mod looking;
pub mod pages;
pub mod schedules;

pub use call_figures::{FabrwentAlike, FabrwentCall, FabrwentLoad};
pub use call_look::Sight;
pub use calls::{fabrwent_alike, fabrwent_instant, fabrwent_start};
pub use loading::fabrwent_load;
pub use looking::fabrwent_look;
pub use pages::fabrwent_page;
pub use schedules::fabrwent_windows;
