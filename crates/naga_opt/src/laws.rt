//! Laws of the program.
ghost use Rattle.std.specs.Prelude.{◌≡◌, List, ℕ};
ghost use Rattle.naga_opt.specs.Arguments.{Meaning, Means};
ghost use Rattle.naga_opt.specs.Task.{Chosen};

/// Arguments mean one thing at most.
pub fn arguments_mean_one_thing()
    ensures { (before : Chosen) (arguments : List (List ℕ)) (meant other : Meaning)
        → Means before arguments meant → Means before arguments other → meant ≡ other }
{}
