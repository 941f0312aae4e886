//! How the memory is filled (RFC 9106, sections 3.2 and 3.4).

ghost use Rattle.std.specs.Prelude.{◌≡◌, ◌<◌, ◌≤◌, ◌*◌, ◌^◌, ◌++◌};
ghost use Rattle.paseto_argon2.specs.Filling.{chosen};
ghost use Rattle.paseto_argon2.specs.VariableHash.{le32};

use crate::block::{
    BLOCK_LEN, Block, block_bytes, block_of, compressed, word_of, xored, zero_block,
};
use crate::variable_hash::variable_hash;
use std::alloc::{AllocError, Global};
use std::simd::u64x2;

// A lane has so many segments.
const SLICES: usize = 4;

// The words of an address block.
const ADDRESSES: usize = 128;

// The values of half a word.
const HALF: u64 = 1 << 32;

// What the filling depends on: H_0, the number of lanes, of blocks in a segment, and of passes.
#[derive(Drop)]
pub(crate) struct Filling {
    pub(crate) seed: [u8; 64],
    pub(crate) lanes: usize,
    pub(crate) segment: usize,
    pub(crate) passes: usize,
    ghost some_lane: { 1 ≤ lanes },
    ghost lanes_fit: { lanes < 2 ^ 24 },
    ghost some_blocks: { 2 ≤ segment },
    ghost segment_fits: { segment < 2 ^ 30 },
    ghost memory_fits: { lanes * (4 * segment) < 2 ^ 32 },
    ghost passes_fit: { passes < 2 ^ 32 },
}

// A segment: the pass, the lane and the slice that it is of.
#[derive(Clone, Copy)]
pub(crate) struct Segment {
    pass: usize,
    lane: usize,
    slice: usize,
}

impl Filling {
    ghost use Rattle.std.specs.Prelude.{◌≡◌, ℕ, ◌<◌, ◌≤◌, ◌+◌, ◌*◌, ◌^◌, ◌==◌, List, IfOk, IsTrue, not, length, map, slice_index};
    ghost use Rattle.paseto_argon2.specs.Block.{block_bytes, registers};
    ghost use Rattle.paseto_argon2.specs.Filling.{address_block, after_blocks, after_lanes, after_passes, after_slices, area, column_before, final_block, finished, first_block, is_independent, last_blocks, reference_column, reference_lane, start, with_block};
    ghost use Rattle.paseto_argon2.specs.Settings.{setting_of};

    // The number of columns of the memory, which is a matrix of blocks.
    fn columns(&self) -> usize
        ensures { result ≡ 4 * self.now.segment }
    {
        SLICES * self.segment
    }

    // The number of blocks of the memory.
    fn block_count(&self) -> usize
        ensures { result ≡ self.now.lanes * (4 * self.now.segment) }
    {
        self.lanes * self.columns()
    }

    // The place in the memory of the block in a lane and a column.
    fn place(&self, lane: usize, column: usize) -> usize
        requires lane { lane < self.now.lanes }
        requires column { column < 4 * self.now.segment }
        ensures value { result ≡ lane * (4 * self.now.segment) + column }
        ensures within { result < self.now.lanes * (4 * self.now.segment) }
    {
        lane * self.columns() + column
    }

    fn column_before(&self, column: usize) -> usize
        requires { column < 4 * self.now.segment }
        ensures value { result ≡ column_before (setting_of self.now) column }
        ensures within { result < 4 * self.now.segment }
    {
        (column + self.columns() - 1) % self.columns()
    }

    // B[i][0] and B[i][1] of the first pass (section 3.2).
    fn first_block(&self, lane: usize, column: usize) -> Block
        requires lane { lane < self.now.lanes }
        requires column { column < 2 }
        ensures { result ≡ registers (first_block (setting_of self.now) lane column) }
    {
        let numbers = two_numbers(column as u32, lane as u32);
        let mut bytes = [0u8; BLOCK_LEN];
        variable_hash(&self.seed, &numbers, &mut bytes);
        block_of(&bytes)
    }

    // A block of numbers that depend on no data (section 3.4.1.2).
    fn address_block(&self, at: Segment, k: usize) -> Block
        requires { k < 2 ^ 30 }
        ensures { result ≡ registers (address_block (setting_of self.now) at.pass at.lane at.slice k) }
    {
        let zero = u64x2::splat(0);
        let mut input = zero_block();
        input[0] = [
            u64x2::from_array([at.pass as u64, at.lane as u64]),
            u64x2::from_array([at.slice as u64, self.block_count() as u64]),
            u64x2::from_array([self.passes as u64, 2]),
            u64x2::from_array([k as u64 + 1, 0]),
            zero,
            zero,
            zero,
            zero,
        ];
        let zeros = zero_block();
        compressed(&zeros, &compressed(&zeros, &input))
    }

    // The lane that a random word refers to (section 3.4.2).
    #[tactic(auto, unfolding(crate::specs::Filling::reference_lane))]
    fn reference_lane(&self, at: Segment, random: u64) -> usize
        requires { at.lane < self.now.lanes }
        ensures value { result ≡ reference_lane (setting_of self.now) at.pass at.lane at.slice random }
        ensures within { result < self.now.lanes }
    {
        if at.pass == 0 && at.slice == 0 {
            return at.lane;
        }
        (random / HALF) as usize % self.lanes
    }

    // The number of blocks of a lane in segments that are finished.
    #[tactic(auto, using(crate::proofs::Memory::segments_within), unfolding(crate::specs::Filling::finished))]
    fn finished(&self, at: Segment) -> usize
        requires { at.slice < 4 }
        ensures value { result ≡ finished (setting_of self.now) at.pass at.slice }
        ensures within { result ≤ 3 * self.now.segment }
    {
        if at.pass == 0 {
            at.slice * self.segment
        } else {
            3 * self.segment
        }
    }

    // The number of blocks that a block may refer to (section 3.4.2).
    #[tactic(auto, unfolding(crate::specs::Filling::area))]
    fn area(&self, at: Segment, index: usize, is_own_lane: bool) -> usize
        requires slice { at.slice < 4 }
        requires index { index < self.now.segment }
        ensures value { result ≡ area (setting_of self.now) at.pass at.slice index is_own_lane }
        ensures within { result < 4 * self.now.segment }
    {
        let finished = self.finished(at);
        if is_own_lane {
            (finished + index).saturating_sub(1)
        } else if index == 0 {
            finished.saturating_sub(1)
        } else {
            finished
        }
    }

    // The column from which on blocks may be referred to.
    #[tactic(auto, unfolding(crate::specs::Filling::start))]
    fn start(&self, at: Segment) -> usize
        requires { at.slice < 4 }
        ensures value { result ≡ start (setting_of self.now) at.pass at.slice }
        ensures within { result < 2 ^ 32 }
    {
        if at.pass == 0 {
            return 0;
        }
        (at.slice + 1) % SLICES * self.segment
    }

    // The column that a random word refers to, where so many blocks may be referred to (section 3.4.2).
    #[tactic(auto, unfolding(crate::specs::Filling::reference_column))]
    fn reference_column(&self, at: Segment, size: usize, random: u64) -> usize
        requires slice { at.slice < 4 }
        requires size { size < 2 ^ 32 }
        ensures value { result ≡ reference_column (setting_of self.now) at.pass at.slice size random }
        ensures within { result < 4 * self.now.segment }
    {
        (self.start(at) + chosen(size, random)) % self.columns()
    }

    // Makes block `index` of a segment. A random word tells which other block it is made of.
    fn fill_block(&self, memory: &mut [Block], at: Segment, index: usize, random: u64)
        requires size { length memory.old ≡ self.now.lanes * (4 * self.now.segment) }
        requires lane { at.lane < self.now.lanes }
        requires slice { at.slice < 4 }
        requires index { index < self.now.segment }
        ensures { (m : List (List ℕ)) → memory.old ≡ map registers m → memory.new ≡ map registers
            (with_block (setting_of self.now) m at.pass at.lane at.slice index random) }
    {
        let column = at.slice * self.segment + index;
        let place = self.place(at.lane, column);
        if at.pass == 0 && column < 2 {
            memory[place] = self.first_block(at.lane, column);
            return;
        }
        let lane = self.reference_lane(at, random);
        let size = self.area(at, index, lane == at.lane);
        let reference = self.place(lane, self.reference_column(at, size, random));
        let previous = self.place(at.lane, self.column_before(column));
        let made = compressed(&memory[previous], &memory[reference]);
        if at.pass == 0 {
            memory[place] = made;
            return;
        }
        memory[place] = xored(&made, &memory[place]);
    }

    // Fills a segment of the first half of the first pass.
    fn fill_independently(&self, memory: &mut [Block], at: Segment)
        requires size { length memory.old ≡ self.now.lanes * (4 * self.now.segment) }
        requires lane { at.lane < self.now.lanes }
        requires slice { at.slice < 4 }
        requires half { IsTrue (is_independent at.pass at.slice) }
        ensures { (m : List (List ℕ)) → memory.old ≡ map registers m → memory.new ≡ map registers
            (after_blocks (setting_of self.now) m at.pass at.lane at.slice self.now.segment) }
    {
        let mut addresses = zero_block();
        'independent: for index in 0..self.segment {
            if index % ADDRESSES == 0 {
                addresses = self.address_block(at, index / ADDRESSES);
            }
            let random = word_of(&addresses, index % ADDRESSES);
            self.fill_block(memory, at, index, random);
        }
    }

    // Fills any other segment.
    fn fill_dependently(&self, memory: &mut [Block], at: Segment)
        requires size { length memory.old ≡ self.now.lanes * (4 * self.now.segment) }
        requires lane { at.lane < self.now.lanes }
        requires slice { at.slice < 4 }
        requires half { IsTrue (not (is_independent at.pass at.slice)) }
        ensures { (m : List (List ℕ)) → memory.old ≡ map registers m → memory.new ≡ map registers
            (after_blocks (setting_of self.now) m at.pass at.lane at.slice self.now.segment) }
    {
        'dependent: for index in 0..self.segment {
            let column = at.slice * self.segment + index;
            let previous = self.place(at.lane, self.column_before(column));
            let random = word_of(&memory[previous], 0);
            self.fill_block(memory, at, index, random);
        }
    }

    fn fill_segment(&self, memory: &mut [Block], at: Segment)
        requires size { length memory.old ≡ self.now.lanes * (4 * self.now.segment) }
        requires lane { at.lane < self.now.lanes }
        requires slice { at.slice < 4 }
        ensures { (m : List (List ℕ)) → memory.old ≡ map registers m → memory.new ≡ map registers
            (after_blocks (setting_of self.now) m at.pass at.lane at.slice self.now.segment) }
    {
        if at.pass == 0 && at.slice < 2 {
            self.fill_independently(memory, at);
        } else {
            self.fill_dependently(memory, at);
        }
    }

    // Fills a slice, lane by lane.
    fn fill_slice(&self, memory: &mut [Block], pass: usize, slice: usize)
        requires size { length memory.old ≡ self.now.lanes * (4 * self.now.segment) }
        requires slice { slice < 4 }
        ensures { (m : List (List ℕ)) → memory.old ≡ map registers m → memory.new ≡ map registers
            (after_lanes (setting_of self.now) m pass slice self.now.lanes) }
    {
        'lanes: for lane in 0..self.lanes {
            self.fill_segment(memory, Segment { pass, lane, slice });
        }
    }

    fn fill_pass(&self, memory: &mut [Block], pass: usize)
        requires { length memory.old ≡ self.now.lanes * (4 * self.now.segment) }
        ensures { (m : List (List ℕ)) → memory.old ≡ map registers m → memory.new ≡ map registers
            (after_slices (setting_of self.now) m pass 4) }
    {
        'slices: for slice in 0..SLICES {
            self.fill_slice(memory, pass, slice);
        }
    }

    // Fills the memory in all passes.
    fn fill(&self, memory: &mut [Block])
        requires { length memory.old ≡ self.now.lanes * (4 * self.now.segment) }
        ensures { (m : List (List ℕ)) → memory.old ≡ map registers m → memory.new ≡ map registers
            (after_passes (setting_of self.now) m self.now.passes) }
    {
        'passes: for pass in 0..self.passes {
            self.fill_pass(memory, pass);
        }
    }

    // The exclusive or of the last blocks of all lanes (section 3.2).
    fn last_blocks(&self, memory: &[Block]) -> Block
        requires { length memory.now ≡ self.now.lanes * (4 * self.now.segment) }
        ensures { (m : List (List ℕ)) → memory.now ≡ map registers m
            → result ≡ registers (last_blocks (setting_of self.now) m self.now.lanes) }
    {
        let mut sum = zero_block();
        'lanes: for lane in 0..self.lanes {
            sum = xored(&sum, &memory[self.place(lane, self.columns() - 1)]);
        }
        sum
    }

    // The bytes of C, the exclusive or of the last blocks of all lanes, after all passes.
    pub(crate) fn final_bytes(&self, alloc: Global) -> Result<[u8; 1024], AllocError>
        ensures { IfOk result (λ bytes. bytes ≡ block_bytes (final_block (setting_of self.now))) }
    {
        let mut memory = Vec::new(alloc);
        memory.resize(self.block_count(), zero_block())?;
        self.fill(&mut memory);
        Ok(block_bytes(&self.last_blocks(&memory)))
    }
}

// Two numbers in four bytes each, the low ones first.
fn two_numbers(first: u32, second: u32) -> [u8; 8]
    ensures { result ≡ le32 first ++ le32 second }
{
    let a = first.to_le_bytes();
    let b = second.to_le_bytes();
    [a[0], a[1], a[2], a[3], b[0], b[1], b[2], b[3]]
}

// Which of so many blocks a random word refers to (section 3.4.2).
fn chosen(size: usize, random: u64) -> usize
    requires { size < 2 ^ 32 }
    ensures value { result ≡ chosen size random }
    ensures within { result < 2 ^ 32 }
{
    let low = random % HALF;
    let square = low * low / HALF;
    let skipped = size as u64 * square / HALF;
    size.saturating_sub(1).saturating_sub(skipped as usize)
}
