// Opening a traverse, with any limit on points.
#![tactic(auto, unfolding(crate::specs::Numbers::buffers_ok))]

ghost use Rattle.std.specs.Prelude.{◌≡◌};
ghost use Rattle.records.specs.Shapes.{traverse_of};
ghost use Rattle.lent.specs.Calls.{left_open, open_with};

use super::numbers::{STATE, WRONG_BUFFER, tell};
use records::Traverse;
use records::groups::Group;

// The traverse may have `most` points. The number of the refusal is returned, 0 where it is accepted.
pub fn open_traverse(most: usize, traverse: Traverse, state: &mut [i64], answer: &mut [i64]) -> u64
    ensures { left_open result state.new answer.new ≡ open_with most (traverse_of traverse.entry) state.old answer.old }
{
    let Some(state) = state.as_mut_array::<STATE>() else {
        return WRONG_BUFFER;
    };
    let Some(answer) = answer.as_mut_array() else {
        return WRONG_BUFFER;
    };
    match march::open_traverse(most, traverse) {
        Ok(fresh) => {
            fresh.write(state);
            tell(answer, Ok([0, 0, 0]))
        }
        Err(refusal) => tell(answer, Err(refusal)),
    }
}
