// The block of an object or an upload: the keys and values of its pairs, then data.
ghost use Rattle.mem_edit.specs.Blocks.{Writable, WrittenBlock, BlockReplaceable, ReplacedBlock};

// How many length bytes a block's pairs have, and how many bytes the block has.
#[derive(Clone, Copy)]
pub struct BlockSizes {
    pub lengths: usize,
    pub bytes: usize,
}

// The kept pairs of a request and data, over the arena from `at` on; the lengths of the pairs over the front of
// `lengths`.
pub fn write_block(
    arena: &mut [u8],
    at: usize,
    pairs: &[u8],
    content: &[u8],
    lengths: &mut [u8],
) -> BlockSizes
    requires { Writable arena.old at pairs.now content.now lengths.old }
    ensures { WrittenBlock arena.old at pairs.now content.now result
        arena.new lengths.new }
{
    let kept = pairs_kept::count(pairs);
    let held = pairs_kept::held(pairs);
    pairs_write::write_kept(pairs, lengths, 0, arena, at);
    base_buffer::copy_at(arena, at + held, content);
    BlockSizes {
        lengths: 2 * kept,
        bytes: held + content.len(),
    }
}

// The `old` bytes of a block at `at` give way to the kept pairs of a request and data, where `held` bytes of the arena
// are held; the lengths of the pairs go over the front of `lengths`. Nothing after the block moves where its size stays.
pub fn replace_block(
    arena: &mut [u8],
    at: usize,
    old: usize,
    held: usize,
    pairs: &[u8],
    content: &[u8],
    lengths: &mut [u8],
) -> BlockSizes
    requires { BlockReplaceable arena.old at old held pairs.now content.now lengths.old }
    ensures { ReplacedBlock arena.old at old held pairs.now content.now result
        arena.new lengths.new }
{
    let size = pairs_kept::held(pairs) + content.len();
    base_buffer::copy_within(arena, at + old, at + size, held - (at + old));
    write_block(arena, at, pairs, content, lengths)
}
