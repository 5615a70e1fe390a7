// The bench host's door to the engine with a memory on the bus: `run_with_memory` for C.
#![tactic(auto)]

ghost use Rattle.std.specs.Prelude.{◌≡◌};
ghost use Rattle.engine.specs.Host.{hosted};
ghost use Rattle.memory.specs.Host.{remembered, host_with};

use engine::Report;

#[unsafe(no_mangle)]
pub extern "C" fn run_with_memory(
    deck: &[u8],
    memory: &mut [u8],
    delay: u32,
    requests: &mut [u8],
    state: &mut [u8],
    marking: u32,
) -> Report
    ensures { remembered (hosted result requests.new state.new) memory.new ≡ host_with deck.now memory.old delay requests.old state.old marking }
{
    memory::run_with_memory(deck, memory, delay, requests, state, marking)
}
