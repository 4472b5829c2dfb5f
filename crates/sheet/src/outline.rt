// What the acceptance of a record depends on, so that a sheet is checked without touching the net.
ghost use Rattle.std.specs.Prelude.{◌≡◌, refl};
ghost use Rattle.std.proofs.Common.{◌∙◌};
ghost use Rattle.net.specs.Refusals.{answered};
ghost use Rattle.net.specs.State.{State};
ghost use Rattle.sheet.specs.Outlines.{may_arrange, Foreseen};
ghost use Rattle.sheet.specs.Sheets.{performed};
ghost use Rattle.sheet.specs.Told.{asking};

use super::form::Request;
use super::performing::Performs;
use kinds::kind::Kind;
use net::net::laying::check_require;
use net::net::making::check_begin;
use net::refusal::Refusal;
use order::event_order::EventOrder;

// The events after the records so far, and the cells of the net's table.
#[derive(Clone, Copy)]
pub struct Outline {
    // as the net tells it: 0 where it has not begun
    pub events: usize,
    pub cells: usize,
}

impl<K: Kind> Performs<K> for Outline {
    ghost shows = { λ outline s. s.events ≡ outline.events };

    ghost cells = { λ outline. outline.cells };

    ghost keeps = { λ a b. b.cells ≡ a.cells };

    fn perform(&mut self, request: Request<'_, K>) -> Result<(), Refusal>
        ensures same { self.new.cells ≡ self.old.cells }
        ensures foreseen { (s : State) → s.events ≡ self.old.events → Foreseen (performed K.Kind.arithmetic self.old.cells (asking K.Kind.amount request.entry) s) (answered result) self.new.events }
    {
        match request {
            Request::Begin { n } => {
                let n = usize::from(n);
                check_begin(n, self.cells)?;
                self.events = n;
                Ok(())
            }
            Request::Require { from, to, bound } => {
                check_require(self.events, usize::from(from), usize::from(to), bound)
            }
            Request::Arrange { events } => may_arrange(self.events, events),
        }
    }

    ghost keeps_on = { λ a b c f g. g ∙ f };

    ghost keeps_none = { λ a. refl };
}

// The check is `from_list` itself: `arrange` of the net makes the same call, and keeps the ordering.
fn may_arrange(n: usize, events: &[u8]) -> Result<(), Refusal>
    ensures { answered result ≡ may_arrange n events.now }
{
    // `?` makes what the list lacks a refusal; the ordering itself is not kept
    EventOrder::from_list(events, n)?;
    Ok(())
}
