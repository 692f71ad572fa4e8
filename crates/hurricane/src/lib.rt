// A storm record from a hurricane's few numbers: central pressure, edge pressure, radius of greatest wind, one place of the track and a list of
// winds by radius. Document 02, Q-1; the pressure profile is that of equations 31 and 33 of TM-35, or by Q-7 a table that a caller lends. Two
// numbers are a row of the list, three a point of the plane, three a point of the record that is made; a length that is no whole number of them
// counts as none. Nothing here is marched: what is made are numbers for the march to take. Every call equals a definition of `specs/`.
#![tactic(auto)]

mod checks;
mod field;
mod groups;
mod limits;
mod make;
pub mod profile;
mod table;

pub use make::{make_record, make_record_with};

// A hurricane at one place of its track: central and edge pressure in 0.01 inch of mercury, the radius R of greatest wind in 0.1 mile, and its
// centre in the plane in 0.1 mile.
#[derive(Clone, Copy, Debug, PartialEq, Eq)]
pub struct Hurricane {
    pub central: i64,
    pub edge: i64,
    pub radius: i64,
    pub x: i64,
    pub y: i64,
}

// A row of the list of winds: a radius in 0.1 mile and the wind there in 0.1 mile per hour.
#[derive(Clone, Copy, Debug, PartialEq, Eq)]
pub struct WindRow {
    pub radius: i64,
    pub wind: i64,
}

// A point of the traverse in the plane, in 0.1 mile, and the angle of the wind there in 0.1 degree, judged beside a calm too, though a
// calm gets angle 0.
#[derive(Clone, Copy, Debug, PartialEq, Eq)]
pub struct PlanePoint {
    pub x: i64,
    pub y: i64,
    pub angle: i64,
}
