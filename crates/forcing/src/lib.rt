// Wind forcing: sines from a table, the coefficient of a wind's stress, the stress across and along the traverse, the force on a segment
// as a range, and the speed that limits its flux. Every function equals a definition of `specs/`; what a function requires are the limits
// of document 01, which its caller has checked.
#![tactic(auto)]

mod forces;
mod limits;
mod sines;
mod stresses;
mod table;
mod winds;

pub use forces::force;
pub use limits::limiting_speed;
pub use sines::Angle;
pub use stresses::{PointStress, point_stress};
pub use winds::{StressCoefficient, Wind};
