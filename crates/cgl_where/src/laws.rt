//! What holds of every point file.

ghost use Rattle.cgl_where.specs.Laws.{DenominatorsAreLeast, FrontsMeanAll, PointsAreWithin, ResultsArePoints, ValuesAreKept};

/// The point of a file has a number for each column of the model, a denominator of at most 2^62 and numerators below 2^100 in magnitude.
/// The common denominator of fractions is the least, and the numerators over it give the fractions back.
/// No more than the first 2^30 + 1 bytes of a file count.
pub fn known_points()
    ensures within { PointsAreWithin }
    ensures results { ResultsArePoints }
    ensures least { DenominatorsAreLeast }
    ensures values { ValuesAreKept }
    ensures fronts { FrontsMeanAll }
{}
