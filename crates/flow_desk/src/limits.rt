ghost use Rattle.std.specs.Prelude.{◌≡◌};
ghost use Rattle.flow_view.specs.declared.size.TheConstants.{MOST_ARROWS, MOST_PIXELS, MOST_SHOWN};
ghost use Rattle.flow_desk.specs.declared.run_file.TheConstants.{GREATEST_RUN};

/// The limits of a picture, as the documents state them.
pub fn law_limits_of_pictures()
    ensures run { GREATEST_RUN ≡ 134217728 }
    ensures pixels { MOST_PIXELS ≡ 1000000000 }
    ensures arrows { MOST_ARROWS ≡ 4096 }
    ensures shown { MOST_SHOWN ≡ 48 }
{}
