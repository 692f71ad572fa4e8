// A state as two numbers in a slice, which a caller keeps between two records: how it is read and how it is written.
ghost use Rattle.march.specs.Groups.{state_of, of_state};
ghost use Rattle.march.specs.GroupsLaws.{state-laws};

use super::State;
use records::groups::Group;

impl Group for State {
    const NUMBERS: usize = 2;

    ghost NUMBERS = { 2 };

    ghost of_numbers = { state_of };

    ghost numbers = { of_state };

    ghost laws = { state-laws };

    #[tactic(auto, unfolding(crate::specs::Groups::not_zero))]
    fn read(list: &[i64]) -> Self {
        State {
            elapsed: list[0],
            started: list[1] != 0,
        }
    }

    fn write(self, list: &mut [i64]) {
        list.copy_from_slice(&[self.elapsed, i64::from(self.started)]);
    }
}
