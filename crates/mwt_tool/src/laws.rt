// The laws that join two answers.
ghost use Rattle.std.specs.Prelude.{◌≡◌, ℕ, List, codes};
ghost use Rattle.mwt_base.specs.Line.{line};
ghost use Rattle.mwt_base.specs.declared.status.Status.{Status as status_type};
ghost use Rattle.mwt_base.specs.declared.status.Status.TheVariants.{Done as is_done};
ghost use Rattle.mwt_tool.specs.declared.solver.Settings.{Settings as settings_type};
ghost use Rattle.mwt_tool.specs.declared.words.Mode.TheVariants.{Check as to_check};
ghost use Rattle.mwt_tool.specs.Intends.{Intends};
ghost use Rattle.mwt_tool.specs.OneFile.{OneFileAlike, OneInputAlike, OneText};
ghost use Rattle.mwt_tool.specs.Solves.{Solves};
ghost use Rattle.mwt_tool.specs.Words.{AskFor};

/// What `solve` means to write with the status Done, whatever the settings, is to be answered with Done and
/// the line `valid`, and with nothing else, where the words ask for `check`.
pub fn round_trip_law()
    ensures { (settings : settings_type) (input report said : List ℕ) (words : List (List ℕ)) (status : status_type)
        → Solves settings input is_done report → AskFor to_check words → Intends words report status said
        → (status ≡ is_done) × (said ≡ line (codes "valid")) }
{}

/// Two reports of one file with the same value of the diamond test and the same number of sweeps are one
/// report, whatever the workers, the gate and the schedule; and two texts that `solve` means to write for
/// one input are the same bytes. With other sweeps the reports still share the points, the hull, the edges,
/// the method, the triangulation and its length; with the method faces they are one. It does nothing: its
/// contract says so.
pub fn one_file_law()
    ensures reports { OneFileAlike }
    ensures texts { OneInputAlike }
    ensures bytes { OneText }
{}
