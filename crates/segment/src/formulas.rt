// One segment of a record, on plain numbers: water depth, flux, gain and setup, with checks 10 to 12 in that order.
// What it is given lies within document 01's limits, so that no number on the way leaves 64 bits.
ghost use Rattle.std.specs.Prelude.{◌≡◌, true, pos};
ghost use Rattle.ranges.specs.Bounds.{Sized};
ghost use Rattle.records.specs.Limits.{water_ok, flux_ok};
ghost use Rattle.segment.specs.Segment.{GainIn, ShoreIn, shore_base, depth_of, free_flux, flux_of, gain_top, gain_of, next_setup, leg_of, segment_of, SiteIn, WeatherIn, RowIn, SetupIn, SegmentIn};

use super::{Leg, Site, Weather};
use ranges::Range;
use records::limits::{SETUP, WATER, range_inside};
use records::{Kind, Refusal, Row, need};

// Half of a sum of two depths, 0.1 ft each, in 0.0001 ft.
const HALF_DEPTHS: i64 = 500;

// A level, 0.01 ft, in 0.0001 ft.
const LEVEL_UNIT: i64 = 100;

// Half of a sum of two deficits, 0.01 inch of mercury each, in 0.0001 ft: half of equation 33's 1.14 ft per inch.
const HALF_DEFICITS: i64 = 57;

// A unit of water depth, 0.01 ft, in units of setup.
const WATER_UNIT: i64 = 100;

// 189 times 14,544: nautical mile over gravity, and twice the earth's turning rate.
const TURNING: i64 = 2_748_816;

// The factor of the onshore stress, 203 in errata equation 25, in units of `TURNING`.
const WIND: i64 = 2_030;

// What a gain's numerator has in a unit of setup, for a unit of water depth.
const GAIN_UNIT: i64 = 1_000_000_000;

// A deficit at the shore, 0.01 inch of mercury, in 0.0001 ft: equation 33's 1.14 ft per inch.
const SHORE_DEFICIT: i64 = 114;

// One segment in one step: what the traverse gives it, and what the step does, both within document 01's limits.
#[derive(Clone, Copy, Debug, PartialEq, Eq)]
struct Segment {
    site: Site,
    weather: Weather,
    ghost site_in: { SiteIn site },
    ghost weather_in: { WeatherIn weather },
}

impl Segment {
    // Water depth in 0.01 ft. `setup` is this record's, before the segment.
    fn depth_range(self, setup: Range) -> Range
        requires { SetupIn setup }
        ensures { result ≡ depth_of self.site self.weather setup }
    {
        let base = HALF_DEPTHS * self.site.depths
            + LEVEL_UNIT * self.weather.level
            + HALF_DEFICITS * self.weather.deficits;
        let top = Range {
            low: base + setup.low,
            high: base + setup.high,
        };
        let bottom = Range {
            low: WATER_UNIT,
            high: WATER_UNIT,
        };
        ranges::quotient(top, bottom)
    }

    // The new flux in 0.01 ft²/s before the limit, of a later record.
    fn free_flux(self, row: Row, depth: Range) -> Range
        requires { (RowIn row) × (water_ok depth ≡ true) }
        ensures { result ≡ free_flux self.site self.weather row depth }
    {
        let Weather { seconds, cross, .. } = self.weather;
        let force = forcing::force(false, seconds, row.cross, cross);
        ranges::damped(self.site.friction * seconds, row.flux(), force, depth)
    }

    // The new flux, held by the limiting flux of this record's cross stress. In the first record the row's flux stays.
    fn flux_range(self, first: bool, row: Row, depth: Range) -> Range
        requires { (RowIn row) × (water_ok depth ≡ true) }
        ensures { result ≡ flux_of first self.site self.weather row depth }
    {
        if first {
            return row.flux();
        }
        // The speed comes first: it needs no water depth, so that it is worked out while the divisions of the flux wait for theirs.
        let speed = forcing::limiting_speed(self.site.friction, self.weather.cross);
        let free = self.free_flux(row, depth);
        ranges::limited(speed, depth, free)
    }

    // The gain's numerator at one flux: X·(2,748,816·s·v + 2,030·Y).
    fn gain_top(self, flux: i64) -> i64
        requires { Sized (pos 1000000) flux }
        ensures { result ≡ gain_top self.site self.weather flux }
    {
        let Site { length, sine, .. } = self.site;
        length * (TURNING * sine * flux + WIND * self.weather.onshore)
    }

    // How much the setup grows over the segment, in 0.0001 ft. `flux` is the new one.
    fn gain_range(self, flux: Range, depth: Range) -> Range
        requires { (flux_ok flux ≡ true) × (water_ok depth ≡ true) }
        ensures { result ≡ gain_of self.site self.weather flux depth }
    {
        let low = self.gain_top(flux.low);
        let high = self.gain_top(flux.high);
        let top = Range { low, high };
        let bottom = Range {
            low: GAIN_UNIT * depth.low,
            high: GAIN_UNIT * depth.high,
        };
        ranges::quotient(top, bottom)
    }
}

// The setup for the next segment: low plus low, high plus high.
pub fn next_setup(setup: Range, gain: Range) -> Range
    requires { (SetupIn setup) × (GainIn gain) }
    ensures { result ≡ next_setup setup gain }
{
    Range {
        low: setup.low + gain.low,
        high: setup.high + gain.high,
    }
}

// What the segment leaves: its new row, with this record's cross stress, and the setup after it.
pub fn leg_of(flux: Range, cross: i64, setup: Range) -> Leg
    ensures { result ≡ leg_of flux cross setup }
{
    Leg {
        row: Row {
            low: flux.low,
            high: flux.high,
            cross,
        },
        setup,
    }
}

// The segment numbered `place`, from 1.
#[tactic(auto, unfolding(crate::specs::Segment::segment_of))]
pub fn march_segment(
    place: usize,
    first: bool,
    site: Site,
    weather: Weather,
    row: Row,
    setup: Range,
) -> Result<Leg, Refusal>
    requires { SegmentIn site weather row setup }
    ensures { result ≡ segment_of place first site weather row setup }
{
    let segment = Segment { site, weather };
    let depth = segment.depth_range(setup);
    need(range_inside(depth, WATER), Refusal::new(Kind::Depth, place))?;
    let flux = segment.flux_range(first, row, depth);
    need(
        range_inside(flux, Row::FLUX),
        Refusal::new(Kind::Flux, place),
    )?;
    let gain = segment.gain_range(flux, depth);
    let next = next_setup(setup, gain);
    need(range_inside(next, SETUP), Refusal::new(Kind::Setup, place))?;
    Ok(leg_of(flux, weather.cross, next))
}

// What the shore height has beside the last setup, of initial level plus tide and of the deficit at the shore point.
pub fn shore_base(level: i64, deficit: i64) -> i64
    requires { ShoreIn level deficit }
    ensures { result ≡ shore_base level deficit }
{
    LEVEL_UNIT * level + SHORE_DEFICIT * deficit
}
