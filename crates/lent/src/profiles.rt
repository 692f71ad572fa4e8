// Loading the table of a customer's own pressure profile. Every check and every number is `profile`'s own.
#![tactic(auto, unfolding(crate::specs::Profiles::load_call))]

ghost use Rattle.lent.specs.Profiles.{left_profile, LoadsProfile};

use super::numbers::{WRONG_BUFFER, tell};

// `factors` is room for 1,001 numbers, of which the first ones become the table. The number of the refusal is returned, 0 where it is loaded.
pub fn load_profile(text: &[u8], factors: &mut [i64], answer: &mut [i64]) -> u64
    ensures { LoadsProfile text.now factors.old answer.old (left_profile result factors.new answer.new) }
{
    let Some(answer) = answer.as_mut_array() else {
        return WRONG_BUFFER;
    };
    match profile::load_profile(text, factors) {
        Ok(()) => tell(answer, Ok([0, 0, 0])),
        Err(refusal) => tell(answer, Err(refusal)),
    }
}
