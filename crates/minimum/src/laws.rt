//! A law of the definitions, as a contract: when the least cover of a table of points is that by primes.

ghost use Rattle.minimum.specs.Points.{PointsAreEnough};

/// The least cover of a table with a row for each of some wanted places, of cubes that dominate the
/// primes that hold it, is with some essential primes the least cover by primes, if its cubes are
/// primes and they hold each wanted place together.
pub fn points_are_enough()
    ensures { PointsAreEnough }
{}
