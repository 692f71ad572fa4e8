// Sines and cosines in ten-thousandths, of angles in tenths of a degree, from the table of the first quadrant.
ghost use Rattle.std.specs.Prelude.{◌≡◌, nat_abs};
ghost use Rattle.forcing.specs.Quadrant.{Angle as AngleIn, InTable, place_of, sine_of, cosine_of};

use super::table::entry;

// Where an angle's sine stands in the table, and whether it is negative.
#[derive(Clone, Copy, Debug, PartialEq, Eq)]
pub struct Place {
    pub at: usize,
    pub negative: bool,
}

impl Place {
    fn new(at: i64, negative: bool) -> Self
        requires { InTable at }
        ensures { result ≡ record { at = nat_abs at; negative = negative } }
    {
        Place {
            at: at as usize,
            negative,
        }
    }
}

// An angle in tenths of a degree, from 0 to 3,599.
#[derive(Clone, Copy, Debug, PartialEq, Eq)]
pub struct Angle {
    pub tenths: i64,
    ghost within: { AngleIn tenths },
}

impl Angle {
    // Table place and sign, by quadrant.
    fn place(self) -> Place
        ensures { result ≡ place_of self.tenths }
    {
        let angle = self.tenths;
        match angle {
            ..=900 => Place::new(angle, false),
            ..=1800 => Place::new(1800 - angle, false),
            ..=2700 => Place::new(angle - 1800, true),
            _ => Place::new(3600 - angle, true),
        }
    }

    pub fn sine(self) -> i64
        ensures { result ≡ sine_of self.tenths }
    {
        let place = self.place();
        let size = entry(place.at);
        if place.negative { -size } else { size }
    }

    // The sine a quarter turn on. Each case asks for a sine of its own: so the compiler knows its quadrants, and the march is two percent shorter.
    pub fn cosine(self) -> i64
        ensures { result ≡ cosine_of self.tenths }
    {
        let angle = self.tenths;
        if angle < 2700 {
            let on = Angle {
                tenths: angle + 900,
            };
            return on.sine();
        }
        let on = Angle {
            tenths: angle - 2700,
        };
        on.sine()
    }
}
