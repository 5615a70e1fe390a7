// What an attempt asks of its instruction before it is executed, by the row of its top byte: refusals 6 and 8, and waiting.
#![tactic(auto)]

ghost use Rattle.std.specs.Prelude.{◌≡◌};
ghost use Rattle.checks.specs.Asked.{refusal_by, waiting_by};
ghost use Rattle.checks.specs.Checks.{held_by};
ghost use Rattle.refusals.specs.Refusals.{answer_of};

use code::{CodeRow, Waits};
use refusals::Refusal;
use state::Sample;

// The refusal of CAD, or of an option that is not listed.
#[tactic(auto, unfolding(crate::specs::Asked::refusal_by))]
pub fn refusal(row: CodeRow, code: u8, b: u8) -> Option<Refusal>
    ensures { answer_of result ≡ refusal_by row code b }
{
    if code == 0xAC {
        return Some(Refusal::Unlisted);
    }
    if row.options < b {
        return Some(Refusal::NotAnOption);
    }
    None
}

fn is_held(waits: Waits, sample: Sample) -> bool
    ensures { result ≡ held_by waits sample.reply sample.busy }
{
    match waits {
        Waits::Never => false,
        Waits::ReplyOrBusyHigh => sample.reply | sample.busy,
        Waits::ReplyLow => !sample.reply,
    }
}

// Only E0-FF are asked.
#[tactic(auto, unfolding(crate::specs::Asked::waiting_by, choose::specs::Ranged::ranged))]
pub fn waiting(row: CodeRow, code: u8, sample: Sample) -> bool
    ensures { result ≡ waiting_by row code sample }
{
    match code {
        0x00..=0xDF => false,
        _ => is_held(row.waits, sample),
    }
}
