// A wind, its stress, and the wind stress coefficient k of TM-35, equation 9a (page 14), in units of 10⁻⁷, of a wind W from 0.1 to 200.0 miles per hour:
//
//     k = K₁                      for W ≤ W_c
//     k = K₁ + K₂(1 - W_c/W)²     for W ≥ W_c
//
// The wind w is in tenths of a mile per hour. K₂(1 - W_c/W)² is K₂(w - W_c)² over w², so that k is a whole number over w². A calm has no k:
// W divides.
ghost use Rattle.std.specs.Prelude.{◌≡◌, pos, ◌<ℤ◌};
ghost use Rattle.forcing.specs.Coefficient.{coefficient_of};
ghost use Rattle.forcing.specs.Stress.{Wind as WindIn, stress_of};

// K₁: 1.1·10⁻⁶.
const K1: i64 = 11;

// K₂: 2.5·10⁻⁶.
const K2: i64 = 25;

// W_c, the critical wind speed: 16 miles per hour.
const WC: i64 = 160;

// k as a whole number over w².
#[derive(Clone, Copy, Debug, PartialEq, Eq)]
pub struct StressCoefficient {
    pub numerator: i64,
    pub square: i64,
}

// A wind in tenths of a mile per hour, from 0 to 2,000.
#[derive(Clone, Copy, Debug, PartialEq, Eq)]
pub struct Wind {
    pub tenths: i64,
    ghost within: { WindIn tenths },
}

impl Wind {
    // The coefficient of a wind that is no calm.
    pub fn coefficient(self) -> StressCoefficient
        requires { pos 0 <ℤ self.tenths }
        ensures { result ≡ coefficient_of self.tenths }
    {
        let w = self.tenths;
        let square = w * w;
        let base = K1 * square;
        if w <= WC {
            return StressCoefficient {
                numerator: base,
                square,
            };
        }
        let excess = w - WC;
        let added = K2 * (excess * excess);
        let numerator = base + added;
        StressCoefficient { numerator, square }
    }

    // The stress q: k, in 10⁻⁷, times w², in 10⁻² mph², where the division comes out even. A calm has no k. The limits are named again so that
    // the compiler sees them: then it knows that the product fits, and leaves the numerator where the division stands.
    pub fn stress(self) -> i64
        ensures { result ≡ stress_of self.tenths }
    {
        let w = self.tenths;
        match w {
            0 => 0,
            1..=2000 => {
                let k = self.coefficient();
                k.numerator * (w * w) / k.square
            }
            _ => unreachable!(),
        }
    }
}
