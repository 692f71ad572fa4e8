// The march over the segments, from sea to shore, in scratch: nothing that the caller lent is touched. Each point is looked at once, and its
// wind's stress worked out once, for the segment that ends there and the one that begins.
ghost use Rattle.std.specs.Prelude.{◌≡◌, ◌+◌, ◌*◌, ◌≤◌, length};
ghost use Rattle.records.specs.Groups.{point_at};
ghost use Rattle.records.specs.Shapes.{traverse_of, storm_of};
ghost use Rattle.march.specs.March.{end_at, setting_of, site_between, weather_between, chosen_row, segment_between, march_of, marched};
ghost use Rattle.march.specs.MarchBounds.{PointIn, EndIn, BetweenIn, SettingIn, MarchIn};

use super::{End, Setting};
use forcing::{Angle, Wind};
use ranges::Range;
use records::groups::group_at;
use records::{Closing, Head, Point, Refusal, Row, Station, StormRecord, Traverse};
use segment::{Leg, Site, Weather, march_segment};

// Point i, from 0, as the end of a segment. It belongs into the march's loop: called from there, it makes a record of few segments slower.
#[inline(always)]
pub fn end_at(points: &[i64], winds: &[i64], i: usize) -> End
    requires { (2 * i + 2 ≤ length points.now) × ((3 * i + 3 ≤ length winds.now) × (PointIn (point_at winds.now i))) }
    ensures { result ≡ end_at points.now winds.now i }
{
    let station = group_at::<Station>(points, i);
    let point = group_at::<Point>(winds, i);
    let wind = Wind { tenths: point.wind };
    let angle = Angle {
        tenths: point.angle,
    };
    let stress = forcing::point_stress(wind, angle);
    End {
        distance: station.distance,
        depth: station.depth,
        deficit: point.deficit,
        cross: stress.cross,
        onshore: stress.onshore,
    }
}

// What the traverse gives the segment between two ends.
pub fn site_between(k: Setting, sea: End, shore: End) -> Site
    requires { (EndIn sea) × (EndIn shore) }
    ensures { result ≡ site_between k sea shore }
{
    Site {
        length: sea.distance - shore.distance,
        depths: sea.depth + shore.depth,
        sine: k.sine,
        friction: k.friction,
    }
}

// And what the record gives it.
pub fn weather_between(k: Setting, sea: End, shore: End) -> Weather
    requires { (EndIn sea) × (EndIn shore) }
    ensures { result ≡ weather_between k sea shore }
{
    Weather {
        seconds: k.seconds,
        level: k.level,
        deficits: sea.deficit + shore.deficit,
        cross: sea.cross + shore.cross,
        onshore: sea.onshore + shore.onshore,
    }
}

// The first record works as if all rows were fresh.
pub fn chosen_row(first: bool, row: Row) -> Row
    ensures { result ≡ chosen_row first row }
{
    if first { Row::fresh() } else { row }
}

// The segment numbered `place` between two ends.
pub fn segment_between(
    place: usize,
    k: Setting,
    sea: End,
    shore: End,
    row: Row,
    setup: Range,
) -> Result<Leg, Refusal>
    requires { BetweenIn k sea shore row setup }
    ensures { result ≡ segment_between place k sea shore row setup }
{
    let site = site_between(k, sea, shore);
    let weather = weather_between(k, sea, shore);
    march_segment(
        place,
        k.first,
        site,
        weather,
        chosen_row(k.first, row),
        setup,
    )
}

// What is the same for every segment.
pub fn setting_of(head: Head, closing: Closing, first: bool) -> Setting
    requires { SettingIn head closing }
    ensures { result ≡ setting_of head closing first }
{
    let latitude = Angle {
        tenths: head.latitude,
    };
    Setting {
        first,
        sine: latitude.sine(),
        friction: head.friction,
        seconds: closing.seconds,
        level: head.initial + closing.tide,
    }
}

// A segment for each leg, from the sea on, until one is refused; `legs` holds what each left.
pub fn march(
    traverse: Traverse,
    storm: StormRecord,
    first: bool,
    rows: &[i64],
    legs: &mut [Leg],
) -> Result<(), Refusal>
    requires { MarchIn (traverse_of traverse) (storm_of storm) rows.now (length legs.old) }
    ensures { marched result legs.new ≡ march_of (traverse_of traverse.entry) (storm_of storm.entry) first rows.now (length legs.old) }
{
    let k = setting_of(traverse.head, storm.closing, first);
    let mut sea = end_at(traverse.points, storm.points, 0);
    let mut setup = Range { low: 0, high: 0 };
    for i in 0..legs.len() {
        let shore = end_at(traverse.points, storm.points, i + 1);
        let leg = segment_between(i + 1, k, sea, shore, group_at(rows, i), setup)?;
        legs[i] = leg;
        setup = leg.setup;
        sea = shore;
    }
    Ok(())
}
