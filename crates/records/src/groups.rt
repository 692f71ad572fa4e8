// A group of numbers in a slice, read into a struct or written from one. All index arithmetic of groups stands here, once for every kind of group.
ghost use Rattle.std.specs.Prelude.{◌≡◌, ℕ, ℤ, List, ◌+◌, ◌*◌, ◌<◌, ◌≤◌, length};
ghost use Rattle.records.specs.Places.{Gives};
ghost use Rattle.records.specs.Groups.{GroupLaws, at, wholes, groups, flat, group_at, put_group, head_of, of_head, closing_of, of_closing, station_of, of_station, point_of, of_point, row_of, of_row, range_of, of_range};
ghost use Rattle.records.specs.GroupsLaws.{head-laws, closing-laws, station-laws, point-laws, row-laws, range-laws};

use super::{Closing, Head, Point, Row, Station};
use ranges::Range;

// What stands in a slice as so many numbers.
pub trait Group: Copy {
    const NUMBERS: usize;

    ghost NUMBERS: { ℕ };

    // What numbers stand for, and the numbers of one.
    ghost of_numbers: { (ℕ → ℤ) → Self };

    ghost numbers: { Self → List ℤ };

    fn read(list: &[i64]) -> Self
        requires { length list.now ≡ NUMBERS }
        ensures { result ≡ of_numbers (at list.now) };

    fn write(self, list: &mut [i64])
        requires { length list.old ≡ NUMBERS }
        ensures { list.new ≡ numbers self };

    // No number past its own is looked at, and what is written reads back.
    ghost laws: { GroupLaws Self NUMBERS of_numbers numbers };
}

// How many groups so many numbers are; a length that is no multiple counts as none.
pub fn count<G: Group>(list: &[i64]) -> usize
    ensures { result ≡ wholes G.NUMBERS (length list.now) }
{
    let len = list.len();
    if len % G::NUMBERS != 0 {
        return 0;
    }
    len / G::NUMBERS
}

// Group i.
pub fn group_at<G: Group>(list: &[i64], i: usize) -> G
    requires { G.NUMBERS * i + G.NUMBERS ≤ length list.now }
    ensures { result ≡ group_at G.of_numbers G.NUMBERS list.now i }
{
    let at = G::NUMBERS * i;
    G::read(&list[at..at + G::NUMBERS])
}

// Writes group i.
pub fn store_group<G: Group>(list: &mut [i64], i: usize, group: G)
    requires { G.NUMBERS * i + G.NUMBERS ≤ length list.old }
    ensures { list.new ≡ put_group G.numbers G.NUMBERS list.old i group }
{
    let at = G::NUMBERS * i;
    group.write(&mut list[at..at + G::NUMBERS]);
}

// Fills a list with n groups, each by its number.
pub fn fill<G: Group, F: Fn(usize) -> G>(list: &mut [i64], n: usize, group: F)
    requires callable { (i : ℕ) → i < n → F.pre group i }
    requires room { length list.old ≡ G.NUMBERS * n }
    ensures { (view : ℕ → G) → Gives (F.post group) n view → list.new ≡ flat G.numbers (groups view n) }
{
    for i in 0..n {
        store_group(list, i, group(i));
    }
}

impl Group for Head {
    const NUMBERS: usize = 3;

    ghost NUMBERS = { 3 };

    ghost of_numbers = { head_of };

    ghost numbers = { of_head };

    ghost laws = { head-laws };

    fn read(list: &[i64]) -> Self {
        Head {
            latitude: list[0],
            friction: list[1],
            initial: list[2],
        }
    }

    fn write(self, list: &mut [i64]) {
        list.copy_from_slice(&[self.latitude, self.friction, self.initial]);
    }
}

impl Group for Closing {
    const NUMBERS: usize = 2;

    ghost NUMBERS = { 2 };

    ghost of_numbers = { closing_of };

    ghost numbers = { of_closing };

    ghost laws = { closing-laws };

    fn read(list: &[i64]) -> Self {
        Closing {
            seconds: list[0],
            tide: list[1],
        }
    }

    fn write(self, list: &mut [i64]) {
        list.copy_from_slice(&[self.seconds, self.tide]);
    }
}

impl Group for Station {
    const NUMBERS: usize = 2;

    ghost NUMBERS = { 2 };

    ghost of_numbers = { station_of };

    ghost numbers = { of_station };

    ghost laws = { station-laws };

    fn read(list: &[i64]) -> Self {
        Station {
            distance: list[0],
            depth: list[1],
        }
    }

    fn write(self, list: &mut [i64]) {
        list.copy_from_slice(&[self.distance, self.depth]);
    }
}

impl Group for Point {
    const NUMBERS: usize = 3;

    ghost NUMBERS = { 3 };

    ghost of_numbers = { point_of };

    ghost numbers = { of_point };

    ghost laws = { point-laws };

    fn read(list: &[i64]) -> Self {
        Point {
            wind: list[0],
            angle: list[1],
            deficit: list[2],
        }
    }

    fn write(self, list: &mut [i64]) {
        list.copy_from_slice(&[self.wind, self.angle, self.deficit]);
    }
}

impl Group for Row {
    const NUMBERS: usize = 3;

    ghost NUMBERS = { 3 };

    ghost of_numbers = { row_of };

    ghost numbers = { of_row };

    ghost laws = { row-laws };

    fn read(list: &[i64]) -> Self {
        Row {
            low: list[0],
            high: list[1],
            cross: list[2],
        }
    }

    fn write(self, list: &mut [i64]) {
        list.copy_from_slice(&[self.low, self.high, self.cross]);
    }
}

impl Group for Range {
    const NUMBERS: usize = 2;

    ghost NUMBERS = { 2 };

    ghost of_numbers = { range_of };

    ghost numbers = { of_range };

    ghost laws = { range-laws };

    fn read(list: &[i64]) -> Self {
        Range {
            low: list[0],
            high: list[1],
        }
    }

    fn write(self, list: &mut [i64]) {
        list.copy_from_slice(&[self.low, self.high]);
    }
}
