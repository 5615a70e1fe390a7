// The bench host's door to the engine: `run` for C.
#![tactic(auto)]

ghost use Rattle.std.specs.Prelude.{◌≡◌};
ghost use Rattle.engine.specs.Host.{hosted, host_of};

use engine::Report;

#[unsafe(no_mangle)]
pub extern "C" fn run(deck: &[u8], requests: &mut [u8], state: &mut [u8], marking: u32) -> Report
    ensures { hosted result requests.new state.new ≡ host_of deck.now requests.old state.old marking }
{
    engine::run(deck, requests, state, marking)
}
