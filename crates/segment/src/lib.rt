// One segment of the traverse in one step of the march, on plain numbers: water depth, flux, gain and setup, and the height at the shore.
// Every function equals a definition of `specs/`. What it is given lies within document 01's limits, which the march has checked.
#![tactic(auto)]

use ranges::Range;
use records::Row;

mod formulas;

pub use formulas::{march_segment, shore_base};

// What the traverse gives a segment: its length, the sum of its two depths, the sine of the latitude and the friction.
#[derive(Clone, Copy, Debug, PartialEq, Eq)]
pub struct Site {
    pub length: i64,
    pub depths: i64,
    pub sine: i64,
    pub friction: i64,
}

// What a step gives it: the seconds, initial level plus tide, and the sums over its two ends of deficit, cross and onshore stress.
#[derive(Clone, Copy, Debug, PartialEq, Eq)]
pub struct Weather {
    pub seconds: i64,
    pub level: i64,
    pub deficits: i64,
    pub cross: i64,
    pub onshore: i64,
}

// What a segment leaves: its new row, and the setup range after it.
#[derive(Clone, Copy, Debug, PartialEq, Eq)]
pub struct Leg {
    pub row: Row,
    pub setup: Range,
}
