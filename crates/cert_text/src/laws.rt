// Laws of the texts of reports.
ghost use Rattle.std.specs.Prelude.{◌≡◌, ◌<◌, ◌*◌, ◌^◌, ◌++◌, [], List, ℕ, length};
ghost use Rattle.cert_text.specs.declared.report.Report.{Report};
ghost use Rattle.cert_text.specs.Texts.{report_text};
ghost use Rattle.cert_text.specs.Within.{IsWithin};

/// Each report has one text. Two reports never share one, and no report's text begins another's. Each text
/// has fewer than 36,000,000 bytes.
pub fn report_text_laws()
    ensures one_text { (r s : Report) → IsWithin r → IsWithin s → (more : List ℕ)
        → report_text r ++ more ≡ report_text s → (r ≡ s) × (more ≡ []) }
    ensures short { (r : Report) → IsWithin r → length (report_text r) < 36 * 10 ^ 6 }
{}
