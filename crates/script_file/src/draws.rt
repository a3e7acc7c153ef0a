// The draws of the generator of scripts: a linear congruence of 31 bits, of whose states the high bits are used.
ghost use Rattle.std.specs.Prelude.{◌≡◌, ◌<◌, ◌≤◌, ◌^◌, IfSome, Some};
ghost use Rattle.script_file.specs.Generated.{base_price, behind_limit, behind_order, drawn, drawn_limit, drawn_side, next_state, order_from};

use mkt_base::Side;

// An order that was drawn: the gateway's number from 1 to 4, 0 or 1 for the issue, the participant's number from 1 to 8, a limit in
// tenths of a yen, none of a market order, and shares.
#[derive(Clone, Copy, Debug, PartialEq, Eq)]
pub(crate) struct DrawnOrder {
    pub(crate) gateway: u64,
    pub(crate) issue: u64,
    pub(crate) participant: u64,
    pub(crate) side: Side,
    pub(crate) limit: Option<u64>,
    pub(crate) quantity: u64,
}

// The generator.
#[derive(Drop)]
pub(crate) struct Draws {
    pub(crate) state: u64,
    ghost small: { state < 2 ^ 32 },
}

impl Draws {
    pub(crate) fn new(number: u32) -> Draws
        ensures { result.state ≡ number }
    {
        Draws {
            state: u64::from(number),
        }
    }

    // The next draw among `below` numbers.
    #[tactic(auto, unfolding(crate::specs::Generated::next_state, crate::specs::Generated::drawn))]
    fn draw(&mut self, below: u64) -> u64
        requires { 1 ≤ below }
        ensures state { self.new.state ≡ next_state self.old.state }
        ensures number { result ≡ drawn below self.new.state }
        ensures within { result < below }
    {
        self.state = (self.state * 1_103_515_245 + 12_345) % 2_147_483_648;
        self.state / 65_536 % below
    }

    // The limit of an order in an issue.
    #[tactic(auto, unfolding(crate::specs::Generated::is_market, crate::specs::Generated::drawn_limit, crate::specs::Generated::behind_limit))]
    fn limit(&mut self, issue: u64) -> Option<u64>
        ensures limit { result ≡ drawn_limit issue self.old.state }
        ensures state { self.new.state ≡ behind_limit self.old.state }
    {
        if self.draw(10) == 0 {
            return None;
        }
        Some(self.draw(61) * 10 + base_price(issue) - 300)
    }

    // The next order.
    #[tactic(auto, unfolding(crate::specs::Generated::behind_side, crate::specs::Generated::order_from, crate::specs::Generated::behind_order))]
    pub(crate) fn order(&mut self) -> DrawnOrder
        ensures order { result ≡ order_from self.old.state }
        ensures state { self.new.state ≡ behind_order self.old.state }
        ensures gateway { (1 ≤ result.gateway) × (result.gateway ≤ 4) }
        ensures participant { (1 ≤ result.participant) × (result.participant ≤ 8) }
        ensures issue { result.issue ≤ 1 }
    {
        let gateway = self.draw(4) + 1;
        let issue = self.draw(2);
        let participant = self.draw(8) + 1;
        let side = drawn_side(self.draw(2));
        let limit = self.limit(issue);
        let quantity = (self.draw(10) + 1) * 100;
        DrawnOrder {
            gateway,
            issue,
            participant,
            side,
            limit,
            quantity,
        }
    }
}

fn base_price(issue: u64) -> u64
    ensures value { result ≡ base_price issue }
    ensures some { 12000 ≤ result }
    ensures few { result ≤ 20000 }
{
    match issue {
        0 => 20_000,
        _ => 12_000,
    }
}

fn drawn_side(number: u64) -> Side
    ensures { result ≡ drawn_side number }
{
    match number {
        0 => Side::Buy,
        _ => Side::Sell,
    }
}
