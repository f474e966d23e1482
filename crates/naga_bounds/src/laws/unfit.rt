//! Laws of the list of accesses that may be out of bounds.
ghost use Rattle.naga_bounds.specs.Unfit.{EachUnfitIsListed, FirstUnfitIsFirst, FitWithoutUnfit};

/// Each access of a function fits if and only if none is listed.
pub fn functions_without_unfit_accesses_fit()
    ensures { FitWithoutUnfit }
{}

/// The first access that is listed is the one that [`check_bounds`](crate::check_bounds) returns of the function.
pub fn first_unfit_access_is_the_first_misfit()
    ensures { FirstUnfitIsFirst }
{}

/// As many accesses are listed as [`misfit_count`](crate::misfit_count) counts.
pub fn each_unfit_access_is_listed()
    ensures { EachUnfitIsListed }
{}
