// The price of a move: nothing where no block moves, else a start and the same for each block.
#![tactic(auto)]

ghost use Rattle.std.specs.Prelude.{◌≡◌, ◌+◌, ◌≤◌};
ghost use Rattle.model.specs.Limits.{most_stack};
ghost use Rattle.prices.specs.Prices.{start_of, price_of, most_price, Small};

#[derive(Clone, Copy)]
pub struct Price {
    pub start: u32,
    pub each: u32,
}

impl Price {
    // What a move of so many blocks costs before its first block. It is one expression, so that the compiler can choose without a branch.
    #[tactic(auto, unfolding(crate::specs::Prices::start_of))]
    fn start_of(self, blocks: u32) -> u32
        ensures { result ≡ start_of self blocks }
    {
        if blocks == 0 { 0 } else { self.start }
    }

    // The price of a move of so many blocks.
    pub fn of_move(self, blocks: u32) -> u32
        requires { Small self × (blocks ≤ most_stack) }
        ensures { (result ≡ price_of self blocks) × (result ≤ most_price) }
    {
        self.start_of(blocks) + self.each * blocks
    }
}

// The price of the blocks that went out and came back: two moves, each with a start of its own. Only the events that move call this, so that the
// others pay nothing for it.
pub fn moves_price(price: Price, out: usize, back: usize) -> u32
    requires { Small price × (out ≤ most_stack) × (back ≤ most_stack) }
    ensures { result ≡ price_of price out + price_of price back }
{
    price.of_move(out as u32) + price.of_move(back as u32)
}
