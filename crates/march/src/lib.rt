// The march of a storm over a traverse, in ranges: opening a traverse and taking a record, on numbers that the caller lends.
// Two numbers are a point of the traverse, three a point of the record, three a row, two a setup range; a length that is no whole number
// of them counts as none. Limits and refusals are document 01's; every call equals a definition of `specs/`.
#![tactic(auto)]

ghost use Rattle.std.specs.Prelude.{◌≡◌};
ghost use Rattle.march.specs.Checks.{fresh_state};

mod checks;
mod groups;
mod march;
mod take;

pub use checks::open_traverse;
pub use take::{FEW_SEGMENTS, take_record, take_with};

// What is kept between two records beside the rows: the elapsed seconds, and whether a first record was accepted.
#[derive(Clone, Copy, Debug, PartialEq, Eq)]
pub struct State {
    pub elapsed: i64,
    pub started: bool,
}

impl State {
    // Of a fresh traverse.
    pub fn fresh() -> Self
        ensures { result ≡ fresh_state }
    {
        State {
            elapsed: 0,
            started: false,
        }
    }
}

// What is the same for every segment of a step.
#[derive(Clone, Copy, Debug, PartialEq, Eq)]
pub struct Setting {
    pub first: bool,
    pub sine: i64,
    pub friction: i64,
    pub seconds: i64,
    pub level: i64,
}

// What a point gives to the two segments that end there: its place and depth, and the storm's deficit and stresses.
#[derive(Clone, Copy, Debug, PartialEq, Eq)]
pub struct End {
    pub distance: i64,
    pub depth: i64,
    pub deficit: i64,
    pub cross: i64,
    pub onshore: i64,
}
