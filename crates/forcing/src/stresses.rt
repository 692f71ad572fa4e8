// Wind stress in units of 10⁻⁹ mph², and its parts across and along the traverse.
ghost use Rattle.std.specs.Prelude.{◌≡◌};
ghost use Rattle.forcing.specs.Stress.{point_stress};

use super::sines::Angle;
use super::winds::Wind;

// The stress at a point, across the traverse and along it, toward the shore.
#[derive(Clone, Copy, Debug, PartialEq, Eq)]
pub struct PointStress {
    pub cross: i64,
    pub onshore: i64,
}

// The stress of a wind at a point: q is worked out once, for both parts.
pub fn point_stress(wind: Wind, angle: Angle) -> PointStress
    ensures { result ≡ point_stress wind.tenths angle.tenths }
{
    let q = wind.stress();
    let across = angle.sine();
    let along = angle.cosine();
    PointStress {
        cross: q * across,
        onshore: q * along,
    }
}
