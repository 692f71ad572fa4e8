// The library's calls on numbers that a caller lends: opening a traverse, taking a record, reading the texts of both, making a record, loading a
// pressure profile, and reading an old card deck. Every check and every number is `march`'s, `reader`'s, `hurricane`'s, `profile`'s and `deck`'s own; here a
// caller's numbers are told apart, and answers written into them. `surge_c` exports these calls to C, the one that takes a record on row structs.
#![tactic(auto)]

mod decks;
mod making;
mod numbers;
mod opening;
mod profiles;
mod reading;
mod taking;

pub use decks::read_deck;
pub use making::{make_record, make_record_with};
pub use opening::open_traverse;
pub use profiles::load_profile;
pub use reading::{read_record, read_traverse};
pub use taking::take_numbers;
