// The record that a gate block stands for.
ghost use Rattle.std.specs.Prelude.{◌≡◌, true, false, [], MatchOption, MatchResult, slice_index_or};
ghost use Rattle.records.specs.Nodes.{no_node};
ghost use Rattle.refusals.specs.Refusals.{number, places};
ghost use Rattle.blocks.specs.Places.{block_nodes, block_places, good_block};
ghost use Rattle.blocks.specs.Reading.{Found, Missing};
ghost use Rattle.blocks.specs.Shaping.{block_level, block_shape};

use super::plan::Plan;
use super::row::Row;
use records::Record;
use refusals::Refusal;

// A good block, asked in place.
#[derive(Drop)]
pub struct BlockRecord<'b> {
    plan: Plan<'b>,
    ghost good: { good_block plan.block.now ≡ true },
}

impl<'b> BlockRecord<'b> {
    // A record without nodes.
    pub fn empty() -> BlockRecord<'b>
        ensures { block_nodes result.plan.block.now ≡ [] }
    {
        BlockRecord {
            plan: Plan::empty(),
        }
    }

    // Sets the record to a block, or refuses the block and leaves the record as it was.
    pub fn take(&mut self, block: &'b [u8]) -> Result<(), Refusal>
        ensures { MatchResult result (λ _. (good_block block.now ≡ true) × (self.new.plan.block.now ≡ block.now)) (λ e. (number e ≡ 5) × (places e ≡ []) × (good_block block.now ≡ false) × (self.new ≡ self.old)) }
    {
        let Some(plan) = Plan::of(block) else {
            return Err(Refusal::Block);
        };
        if !plan.is_good() {
            return Err(Refusal::Block);
        }
        *self = BlockRecord { plan };
        Ok(())
    }

    // Node n, if there is one.
    fn find(&self, n: usize) -> Option<Row>
        ensures { MatchOption result (Missing self.now.plan.block.now n) (λ row. Found self.now.plan.block.now n row) }
    {
        Some(Row::of(self.plan.node(n)?))
    }

    // The name of node n, or nothing where there is none.
    pub fn name_of(&self, n: usize) -> &'b [u8]
        ensures { result.now ≡ (slice_index_or (block_nodes self.now.plan.block.now) n no_node).name }
    {
        match self.find(n) {
            Some(row) => self.plan.name(row.name),
            None => &[],
        }
    }
}

impl<'b> Record for BlockRecord<'b> {
    ghost nodes = { λ x. block_nodes x.plan.block.now };

    ghost places = { λ x. block_places x.plan.block.now };

    ghost shape = { λ x. block_shape x.plan.block.now x.good };

    ghost placed = { λ x. block_level x.plan.block.now };

    fn count(&self) -> usize {
        self.plan.count()
    }

    fn depth(&self, n: usize) -> usize {
        self.find(n).map_or(0, |row| usize::from(row.depth))
    }

    fn value(&self, n: usize) -> Option<i32> {
        self.find(n)?.value
    }

    fn place(&self, n: usize) -> usize {
        if n < self.count() { n } else { 0 }
    }

    fn is_named(&self, n: usize, name: &[u8]) -> bool {
        n < self.count() && self.name_of(n) == name
    }
}
