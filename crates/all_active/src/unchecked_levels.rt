// The heights taken as one value, and where an edge rises among them. The `requires` say that a number is one of theirs.
ghost use Rattle.all_active.specs.Levels.{Climbing};

use all_heights::unchecked::taken_height;

// So many heights, which rise: those given, or the default ones over the lowest z where none are.
#[derive(Clone, Copy)]
pub struct Levels<'a> {
    pub low: i32,
    pub given: &'a [i32],
    pub count: usize,
    pub ghost climbing: { Climbing low given.now count },
}

// The height at which an edge begins to rise, or the count of the heights, and at how many heights it rises.
#[derive(Clone, Copy)]
pub struct EdgeRise {
    pub level: usize,
    pub heights: usize,
}

impl Levels<'_> {
    ghost use Rattle.std.specs.Prelude.{◌≡◌, ◌<◌, ◌≤◌};
    ghost use Rattle.all_active.specs.Levels.{FirstAbove};
    ghost use Rattle.all_active.specs.LevelHeights.{level_at};
    ghost use Rattle.all_active.specs.Totals.{EdgeRises};

    // Height k of them.
    pub fn height(self, k: usize) -> i32
        requires { k < self.count }
        ensures value { result ≡ level_at self.entry k }
    {
        taken_height(self.low, self.given, k)
    }

    // The first of them that is above z, or their count, by halves.
    fn first_above(self, z: i32) -> usize
        ensures result { FirstAbove (level_at self.entry) self.entry.count 0 z result }
    {
        let mut a: usize = 0;
        let mut b = self.count;
        while a < b {
            let m = a + (b - a) / 2;
            let h = self.height(m);
            if z < h {
                b = m;
            } else {
                a = m + 1;
            }
        }
        a
    }

    // The first of them from height j on that is above y, or their count, one by one: each passed is a crossing.
    fn first_past(self, j: usize, y: i32) -> usize
        requires { j ≤ self.count }
        ensures result { FirstAbove (level_at self.entry) self.entry.count j y result }
    {
        for a in j..self.count {
            let h = self.height(a);
            if y < h {
                return a;
            }
        }
        self.count
    }

    // Where an edge from z to y rises.
    pub fn edge_rise(self, z: i32, y: i32) -> EdgeRise
        ensures result { EdgeRises (level_at self.entry) self.entry.count z y result.level result.heights }
    {
        if y <= z {
            return EdgeRise {
                level: self.count,
                heights: 0,
            };
        }
        let a = self.first_above(z);
        let b = self.first_past(a, y);
        if b <= a {
            return EdgeRise {
                level: self.count,
                heights: 0,
            };
        }
        EdgeRise {
            level: a,
            heights: b - a,
        }
    }
}
