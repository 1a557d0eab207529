// The line with which a text that is no report is refused.
ghost use Rattle.std.specs.Prelude.{◌≡◌, IfOk, string_bytes};
ghost use Rattle.mwt_tool.specs.Refusal.{rule_line, rule_name};
ghost use Rattle.svg_picture.specs.Draws.{IsReportRule};

use cert_text::Refusal2;
use std::alloc::{AllocError, Global};

/// The line that `check` writes for the same text, ended by LF.
pub fn report_refusal(alloc: Global, why: Refusal2) -> Result<String, AllocError>
    requires { IsReportRule why.code }
    ensures { IfOk result (λ line. string_bytes line ≡ rule_line why.code why.line) }
{
    let code = why.code;
    let name = rule_name(code);
    let number = why.line;
    if number == 0 {
        let text = format!(in alloc; "refused {code} {name}\n")?;
        return Ok(text);
    }
    let text = format!(in alloc; "refused {code} {name} {number}\n")?;
    Ok(text)
}

#[tactic(auto, unfolding(mwt_tool::specs::Refusal::rule_name))]
fn rule_name(code: u32) -> &'static str
    requires { IsReportRule code }
    ensures { result.now ≡ rule_name code }
{
    match code {
        30 => "Version",
        31 => "Line",
        32 => "Order",
        33 => "Range",
        34 => "Truncated",
        _ => "AfterEnd",
    }
}
