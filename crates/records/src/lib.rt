// What the numbers of a traverse, of a storm record and of a row stand for; the limits of document 01; and its refusals.
// Nothing here is marched: reader, march and the calls for other languages all speak in these terms.
#![tactic(auto)]

ghost use Rattle.std.specs.Prelude.{◌≡◌};
ghost use Rattle.ranges.specs.declared.Range.{Range};
ghost use Rattle.records.specs.Refusals.{number_of, refusal};
ghost use Rattle.records.specs.Rows.{fresh_row, row_flux};

use ranges::Range;

mod checks;
pub mod groups;
pub mod limits;

pub use checks::{each, need};

// What a traverse has beside its points: latitude in 0.1 degree, friction in 0.0001, initial level in 0.01 ft.
#[derive(Clone, Copy, Debug, PartialEq, Eq)]
pub struct Head {
    pub latitude: i64,
    pub friction: i64,
    pub initial: i64,
}

// A traverse as it is lent: two numbers a point, sea to shore.
#[derive(Clone, Copy, Debug, PartialEq, Eq)]
pub struct Traverse<'a> {
    pub head: Head,
    pub points: &'a [i64],
}

// A point of the traverse: its distance from shore in 0.1 nautical mile and its depth in 0.1 ft.
#[derive(Clone, Copy, Debug, PartialEq, Eq)]
pub struct Station {
    pub distance: i64,
    pub depth: i64,
}

// What a storm record has beside its points: it closes an interval of so many seconds, and its tide (0.01 ft) is that at the end.
#[derive(Clone, Copy, Debug, PartialEq, Eq)]
pub struct Closing {
    pub seconds: i64,
    pub tide: i64,
}

// A storm record as it is lent: three numbers a point, in the order of the traverse.
#[derive(Clone, Copy, Debug, PartialEq, Eq)]
pub struct StormRecord<'a> {
    pub closing: Closing,
    pub points: &'a [i64],
}

// The storm at a point: wind in 0.1 mile per hour, its angle in 0.1 degree, pressure deficit in 0.01 inch of mercury.
#[derive(Clone, Copy, Debug, PartialEq, Eq)]
pub struct Point {
    pub wind: i64,
    pub angle: i64,
    pub deficit: i64,
}

// What is kept of a segment between two records: its flux range in 0.01 ft²/s and the last sum of its two cross stresses.
#[repr(C)]
#[derive(Clone, Copy, Debug, PartialEq, Eq)]
pub struct Row {
    pub low: i64,
    pub high: i64,
    pub cross: i64,
}

impl Row {
    // The limits of either end of the flux, and of the sum.
    pub const FLUX: Range = Range {
        low: -1_000_000,
        high: 1_000_000,
    };

    pub const CROSS: Range = Range {
        low: -2_572_800_000_000,
        high: 2_572_800_000_000,
    };

    // The row of a fresh traverse.
    pub fn fresh() -> Self
        ensures { result ≡ fresh_row }
    {
        Row {
            low: 0,
            high: 0,
            cross: 0,
        }
    }

    // The flux range that it holds.
    pub fn flux(self) -> Range
        ensures { result ≡ row_flux self }
    {
        Range {
            low: self.low,
            high: self.high,
        }
    }
}

// What is refused, each by its number. Checks 1 to 12 are document 01's: 1 to 4 those of a file's text, 5 to 7 of a traverse, 8 and 9 of a
// record, 10 to 12 of the march. The others are document 02's: 13 and 14 of what a storm record is made from, 15 to 17 of a card deck,
// 18 of a record, 19 of a traverse on the harbour panel, 20 of a customer's own pressure profile.
#[derive(Clone, Copy, Debug, PartialEq, Eq)]
pub enum Kind {
    Names = 1,
    Malformed = 2,
    Ended = 3,
    Differs = 4,
    Points = 5,
    TraverseValue = 6,
    Distance = 7,
    Lent = 8,
    RecordValue = 9,
    Depth = 10,
    Flux = 11,
    Setup = 12,
    StormValue = 13,
    WindRadii = 14,
    CardOrder = 15,
    CardUnit = 16,
    CardCounts = 17,
    CalmAngle = 18,
    PanelPoints = 19,
    ProfileEntry = 20,
}

impl Kind {
    // The papers' number.
    pub fn number(self) -> u64
        ensures { result ≡ number_of self }
    {
        self as u64
    }
}

// A refusal: its kind and its place, which is a line, a point, a row or a segment, from 1, an entry of a profile, from 0, or a count, of points
// or of distances; 0 where the papers say so.
#[derive(Clone, Copy, Debug, PartialEq, Eq)]
pub struct Refusal {
    pub kind: Kind,
    pub place: usize,
}

impl Refusal {
    pub fn new(kind: Kind, place: usize) -> Self
        ensures { result ≡ refusal kind place }
    {
        Refusal { kind, place }
    }

    // The number of its kind.
    pub fn number(self) -> u64
        ensures { result ≡ number_of self.kind }
    {
        self.kind.number()
    }
}
