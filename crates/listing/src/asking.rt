// What the listing asks of a net of whole microseconds.
ghost use Rattle.std.specs.Prelude.{◌≡◌, ◌≤◌, length};
ghost use Rattle.net.specs.declared.mode.Mode.TheVariants.{Closed as Shut};
ghost use Rattle.listing.specs.Asked.{Kept, Closes, state_of};

use closing::close::Contradiction;
use kinds::micros::Micros;
use net::net::Net;
use net::refusal::Refusal;
use order::counts::Counts;

// A closed net of few events.
#[derive(Clone, Copy)]
pub struct ClosedNet<'n> {
    pub net: &'n Net<'n, Micros>,
    ghost kept: { ∥ Kept net.now ∥₁ },
    ghost closed: { (state_of net.now).mode ≡ Shut },
    ghost few: { (state_of net.now).events ≤ 32 },
}

// Closes a net: its counts are told, or the loop that contradicts, whose events stand at the front of the place.
pub fn close(net: &mut Net<Micros>, place: &mut [u8]) -> Result<Counts, Contradiction>
    requires kept { Kept net.old }
    requires place { 128 ≤ length place.old }
    ensures answer { Closes net.old net.new place.new result }
    ensures kept { Kept net.new }
    ensures events { (state_of net.new).events ≡ (state_of net.old).events }
    ensures bounds { (state_of net.new).bounds ≡ (state_of net.old).bounds }
{
    net.close(place).map_err(|why| match why {
        Refusal::Contradiction(shown) => Contradiction { shown },
        _ => unreachable(),
    })
}
