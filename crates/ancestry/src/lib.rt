// Lines of parents: which blocks are in a block's line. The walks are recursions up the parents, the form that document 01 names.
#![tactic(auto)]

ghost use Rattle.std.specs.Prelude.{◌≡◌};
ghost use Rattle.protocol.specs.Ancestry.{is_ancestor_by};
ghost use Rattle.blocks.specs.inner.Records.{parent_in};
ghost use Rattle.ancestry.specs.inner.AncestryFits.{
  AncestryFits,
  Markable,
  AncestorsMarked,
  Climbed,
  Neared,
};

use blocks::{MAX_BLOCKS, ROOT};

// Marks block b, and gives its parent.
fn mark_block(blocks: &[u32], b: u32, marks: &mut [bool; MAX_BLOCKS as usize]) -> u32
    requires { Markable blocks.now b marks.old }
    ensures { Climbed blocks.now b result marks.old marks.new }
{
    marks[b as usize] = true;
    blocks::parent(blocks, b)
}

// Four blocks of the line, or fewer: block 0 is its own parent. A step that marks and one that only goes up, four_toward's below, share no
// more than the count of four; one function over both would be longer.
fn mark_four(blocks: &[u32], b: u32, marks: &mut [bool; MAX_BLOCKS as usize]) -> u32
    requires { Markable blocks.now b marks.old }
    ensures { Climbed blocks.now b result marks.old marks.new }
{
    let first = mark_block(blocks, b, marks);
    let second = mark_block(blocks, first, marks);
    let third = mark_block(blocks, second, marks);
    mark_block(blocks, third, marks)
}

// Marks the blocks of block b's line, and leaves the other marks. Sixteen blocks a call: a return costs more than a step up, and so
// the stack is a sixteenth as deep.
pub fn mark_ancestors(blocks: &[u32], b: u32, marks: &mut [bool; MAX_BLOCKS as usize])
    requires { Markable blocks.now b marks.old }
    ensures { AncestorsMarked blocks.now b marks.old marks.new }
{
    let first = mark_four(blocks, b, marks);
    let second = mark_four(blocks, first, marks);
    let third = mark_four(blocks, second, marks);
    let top = mark_four(blocks, third, marks);
    if top == ROOT {
        marks[ROOT as usize] = true;
        return;
    }
    mark_ancestors(blocks, top, marks);
}

// The parent of block b where b is above block a, or else b: whether a is in the line does not change.
fn step_toward(blocks: &[u32], a: u32, b: u32) -> u32
    requires { AncestryFits blocks.now b }
    ensures { Neared blocks.now a b result }
{
    if b <= a {
        return b;
    }
    blocks::parent(blocks, b)
}

fn four_toward(blocks: &[u32], a: u32, b: u32) -> u32
    requires { AncestryFits blocks.now b }
    ensures { Neared blocks.now a b result }
{
    let first = step_toward(blocks, a, b);
    let second = step_toward(blocks, a, first);
    let third = step_toward(blocks, a, second);
    step_toward(blocks, a, third)
}

// Whether block a is in the line of block b. Sixteen blocks a call, as above; it ends where the numbers have come down to a.
pub fn is_ancestor(blocks: &[u32], a: u32, b: u32) -> bool
    requires { AncestryFits blocks.now b }
    ensures { result ≡ is_ancestor_by (parent_in blocks.now) a b }
{
    let first = four_toward(blocks, a, b);
    let second = four_toward(blocks, a, first);
    let third = four_toward(blocks, a, second);
    let top = four_toward(blocks, a, third);
    if top <= a {
        return a == top;
    }
    is_ancestor(blocks, a, top)
}
