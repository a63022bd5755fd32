// The blocks (document 02, #105): their numbers, where a block's record stands, how it is read and written, and the form of all that are
// added.
#![tactic(auto)]

ghost use Rattle.std.specs.Prelude.{◌≡◌, [], ◌∷◌, ◌+◌, ◌≤◌, length};
ghost use Rattle.std.proofs.lemmas.List.Edits.{sets};
ghost use Rattle.protocol.specs.Memory.{block_words, parent_at, height_at, block_at as block_at_rule, block_record, max_blocks};
ghost use Rattle.protocol.specs.Form.{all_below};
ghost use Rattle.blocks.specs.inner.Records.{parent_in, height_in, block_ok, Testable};

pub const BLOCK_WORDS: usize = 2;

pub const PARENT_AT: usize = 0;

pub const HEIGHT_AT: usize = 1;

pub const MAX_BLOCKS: u32 = 4096;

// The numbers are those of the definitions: nothing calls these two.
pub fn width_and_offsets() -> [usize; 3]
    ensures { result ≡ block_words ∷ parent_at ∷ height_at ∷ [] }
{
    [BLOCK_WORDS, PARENT_AT, HEIGHT_AT]
}

pub fn most_blocks() -> u32
    ensures { result ≡ max_blocks }
{
    MAX_BLOCKS
}

// The block that is there from the opening on: it has only itself in its line, and no leader proposes it.
pub const ROOT: u32 = 0;

// Where a block's record starts.
pub fn block_at(block: u32) -> usize
    ensures { result ≡ block_at_rule block }
{
    BLOCK_WORDS * (block as usize)
}

pub fn parent(blocks: &[u32], block: u32) -> u32
    requires { block_at_rule block + block_words ≤ length blocks.now }
    ensures { result ≡ parent_in blocks.now block }
{
    blocks[block_at(block) + PARENT_AT]
}

pub fn height(blocks: &[u32], block: u32) -> u32
    requires { block_at_rule block + block_words ≤ length blocks.now }
    ensures { result ≡ height_in blocks.now block }
{
    blocks[block_at(block) + HEIGHT_AT]
}

// Writes the record of a block.
pub fn set_block(blocks: &mut [u32], block: u32, parent: u32, height: u32)
    requires { block_at_rule block + block_words ≤ length blocks.old }
    ensures { blocks.new ≡ sets blocks.old (block_at_rule block) (block_record parent height) }
{
    let at = block_at(block);
    blocks[at + PARENT_AT] = parent;
    blocks[at + HEIGHT_AT] = height;
}

// Block 0 is its own parent, of height 0.
fn root_formed(blocks: &[u32]) -> bool
    requires { block_at_rule 1 ≤ length blocks.now }
    ensures { result ≡ block_ok blocks.now 0 }
{
    let parent = parent(blocks, ROOT);
    let height = height(blocks, ROOT);
    (parent == ROOT) & (height == 0)
}

// A block other than block 0: its parent is below it, and it is one higher than its parent. The parent's height is read once it is known
// that the parent was tested before: it is at most the parent's number then, so one more does not wrap. Numbers are `usize` here: in a
// trial that was quicker.
fn block_formed(blocks: &[u32], block: usize) -> bool
    requires { Testable blocks.now block 1 }
    ensures { result ≡ block_ok blocks.now block }
{
    let at = BLOCK_WORDS * block;
    let parent = blocks[at + PARENT_AT] as usize;
    if block <= parent {
        return false;
    }
    blocks[at + HEIGHT_AT] == blocks[BLOCK_WORDS * parent + HEIGHT_AT] + 1
}

// Every added block, up to the first that fails. A loop, as a block may be tested only where all before it have their form.
pub fn blocks_formed(blocks: &[u32], added: u32) -> bool
    requires { (1 ≤ added) × (added ≤ max_blocks) × (block_at_rule added ≤ length blocks.now) }
    ensures { result ≡ all_below added (block_ok blocks.now) }
{
    if !root_formed(blocks) {
        return false;
    }
    let end = added as usize;
    for block in 1..end {
        if !block_formed(blocks, block) {
            return false;
        }
    }
    true
}
