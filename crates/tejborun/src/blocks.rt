// State blocks, written back.
ghost use Rattle.std.specs.Prelude.{◌≡◌, length};
ghost use Rattle.state_block.specs.Sizes.{state_size};
ghost use Rattle.state_block.specs.StateBlock.{state_block};
ghost use Rattle.tejborun.specs.Buffers.{written_back};

use chain_state::State;

// Writes a state to a block.
pub(crate) fn put_state(block: &mut [u32], state: State)
    requires { length block.old ≡ state_size }
    ensures { block.new ≡ state_block state }
{
    let words = state_block::state_block(state);
    block.copy_from_slice(&words);
}

// Writes the state that a call left, where it took effect.
pub(crate) fn put_back(block: &mut [u32], effect: bool, state: State)
    requires { length block.old ≡ state_size }
    ensures { block.new ≡ written_back effect state block.old }
{
    if effect {
        put_state(block, state);
    }
}
