// What `draw` refuses, `check` refuses alike.
ghost use Rattle.std.specs.Prelude.{ℕ, List};
ghost use Rattle.mwt_base.specs.declared.status.Status.TheVariants.{Refused as is_refused};
ghost use Rattle.mwt_tool.specs.declared.words.Mode.TheVariants.{Check as to_check};
ghost use Rattle.mwt_tool.specs.Intends.{Intends};
ghost use Rattle.mwt_tool.specs.Words.{AskFor};
ghost use Rattle.svg_picture.specs.Draws.{Draws};

/// Where an input is refused though no words were given, the program `mwt` means to write the same line with
/// the same status for words that ask for `check`. It does nothing: its contract says so.
pub fn refused_alike_law()
    ensures { (input text : List ℕ) (words : List (List ℕ)) → AskFor to_check words
        → Draws 0 input is_refused text → Intends words input is_refused text }
{}
