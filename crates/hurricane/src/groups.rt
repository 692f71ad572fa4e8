// One row of the list of winds, one point of the plane: how each is read from a slice of numbers and written to one.
ghost use Rattle.hurricane.specs.Groups.{wind_row_of, of_wind_row, plane_point_of, of_plane_point};
ghost use Rattle.hurricane.specs.GroupsLaws.{wind_row-laws, plane_point-laws};

use super::{PlanePoint, WindRow};
use records::groups::Group;

impl Group for WindRow {
    const NUMBERS: usize = 2;

    ghost NUMBERS = { 2 };

    ghost of_numbers = { wind_row_of };

    ghost numbers = { of_wind_row };

    ghost laws = { wind_row-laws };

    fn read(list: &[i64]) -> Self {
        WindRow {
            radius: list[0],
            wind: list[1],
        }
    }

    fn write(self, list: &mut [i64]) {
        list.copy_from_slice(&[self.radius, self.wind]);
    }
}

impl Group for PlanePoint {
    const NUMBERS: usize = 3;

    ghost NUMBERS = { 3 };

    ghost of_numbers = { plane_point_of };

    ghost numbers = { of_plane_point };

    ghost laws = { plane_point-laws };

    fn read(list: &[i64]) -> Self {
        PlanePoint {
            x: list[0],
            y: list[1],
            angle: list[2],
        }
    }

    fn write(self, list: &mut [i64]) {
        list.copy_from_slice(&[self.x, self.y, self.angle]);
    }
}
