//! Up and down.
ghost use Rattle.std.specs.Prelude.{◌≡◌, ◌≤◌, ◌^◌, pos, ◌≤ℤ◌, ◌<ℤ◌};
ghost use Rattle.ice_bound.specs.declared.direction.Direction.TheVariants.{Up as ToUp, Down as ToDown};
ghost use Rattle.ice_bound.specs.Direction.{toward, opposite};

/// Where a multiplier moves, or on which side of 0 it is.
#[derive(Clone, Copy, Debug, PartialEq, Eq)]
pub enum Direction {
    /// To greater numbers.
    Up,
    /// To smaller ones.
    Down,
}

impl Direction {
    /// The direction in which a number is from 0, and up for 0.
    pub fn of(number: i64) -> Direction
        ensures up { pos 0 ≤ℤ number → result ≡ ToUp }
        ensures down { number <ℤ pos 0 → result ≡ ToDown }
    {
        if number < 0 {
            Direction::Down
        } else {
            Direction::Up
        }
    }

    /// The number at so many steps from 0, of which there are at most 2^56.
    pub fn at(self, steps: u64) -> i64
        requires { steps ≤ 2 ^ 56 }
        ensures { result ≡ toward self steps }
    {
        match self {
            Direction::Up => steps as i64,
            Direction::Down => -(steps as i64),
        }
    }

    /// The other direction.
    pub fn opposite(self) -> Direction
        ensures { result ≡ opposite self }
    {
        match self {
            Direction::Up => Direction::Down,
            Direction::Down => Direction::Up,
        }
    }
}
