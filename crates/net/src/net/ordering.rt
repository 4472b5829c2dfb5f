// How the ordering of a net is set.
ghost use Rattle.std.specs.Prelude.{◌≡◌, Ok};
ghost use Rattle.order.specs.Ranking.{Ranked};
ghost use Rattle.table.specs.Cells.{neighbours};
ghost use Rattle.net.specs.Kept.{Kept};
ghost use Rattle.net.specs.Refusals.{answered};
ghost use Rattle.net.specs.State.{state, room, outcome, Untouched, Sound};
ghost use Rattle.net.specs.State as call;

use super::super::links::by_fewest;
use super::super::mode::Mode;
use super::super::refusal::Refusal;
use super::Net;
use kinds::kind::Kind;
use order::event_order::EventOrder;

impl<'t, K: Kind> Net<'t, K> {
    // Sets the ordering: the events from rank 1 on.
    pub fn arrange(&mut self, list: &[u8]) -> Result<(), Refusal>
        ensures outcome { outcome (answered result) (state K.Kind.amount self.new) ≡ call.arranged list.now (state K.Kind.amount self.old) }
        ensures untouched { Untouched result self.old self.new }
        ensures kept { room self.new ≡ room self.old }
        ensures sound { Sound K.Kind.arithmetic (state K.Kind.amount self.old) → Sound K.Kind.arithmetic (state K.Kind.amount self.new) }
        ensures faithful { Kept K.Kind.arithmetic K.Kind.amount self.old → Kept K.Kind.arithmetic K.Kind.amount self.new }
    {
        let order = EventOrder::from_list(list, self.table.events())?;
        self.table.arrange(order);
        self.mode = Mode::Open;
        Ok(())
    }

    // Gives out the ranks from n down to 1, each to the unranked event with fewest unranked neighbours, the lowest
    // number among equals; its unranked neighbours then become neighbours of each other.
    pub fn rank(&mut self)
        ensures outcome { outcome (Ok tt) (state K.Kind.amount self.new) ≡ call.ranked (state K.Kind.amount self.old) }
        ensures ruled { Ranked (state K.Kind.amount self.old).events (neighbours (state K.Kind.amount self.old).bounds) (state K.Kind.amount self.new).order }
        ensures kept { room self.new ≡ room self.old }
        ensures sound { Sound K.Kind.arithmetic (state K.Kind.amount self.old) → Sound K.Kind.arithmetic (state K.Kind.amount self.new) }
        ensures faithful { Kept K.Kind.arithmetic K.Kind.amount self.old → Kept K.Kind.arithmetic K.Kind.amount self.new }
    {
        let n = self.table.events();
        let table = &mut self.table;
        // the cells whole, as in `close`
        let cells = &mut *table.cells;
        let order = by_fewest(cells, n);
        self.table.arrange(order);
        self.mode = Mode::Open;
    }
}
