// Reading a sheet into a net: first it is checked whole, and then its calls are made.
ghost use Rattle.std.specs.Prelude.{◌≡◌};
ghost use Rattle.net.specs.Kept.{Kept};
ghost use Rattle.net.specs.State.{State, state, room, Sound, Untouched};
ghost use Rattle.sheet.specs.Codes.{EntryCodes};
ghost use Rattle.sheet.specs.Outlines.{AsCalls, IfAmounts, Entered, Taken};
ghost use Rattle.sheet.specs.RoundTrips.{RewrittenBack};
ghost use Rattle.sheet.specs.Sheets.{entered, calls_of, performed_all, reading, read_sheet};
ghost use Rattle.sheet.specs.Told.{coding_of, entry_of};
ghost use Rattle.sheet.specs.Told.{answered as faults_told};

use super::fault::{RecordFault, SheetFault};
use super::form::request_of;
use super::outline::Outline;
use super::performing::Performs;
use super::reader::{Reader, Record};
use kinds::kind::Kind;
use net::net::Net;

// Performs what one record asks.
fn take<K: Kind, T: Performs<K>>(to: &mut T, found: Record<'_>) -> Result<(), RecordFault>
    ensures taken { (s : State) → T.shows to.old s → Entered (entered K.Kind.arithmetic (T.cells to.old) (entry_of (coding_of K.Kind) found.entry) s) found.entry.offset result (T.shows to.new) }
    ensures codes { EntryCodes (coding_of K.Kind) (entry_of (coding_of K.Kind) found.entry) }
    ensures room { T.cells to.new ≡ T.cells to.old }
    ensures kept { T.keeps to.old to.new }
{
    let request = request_of(found)?;
    // `?` makes the refusal a fault of the record
    to.perform(request)?;
    Ok(())
}

// Performs what the records ask in their order, up to the first fault.
fn take_all<K: Kind, T: Performs<K>>(to: &mut T, sheet: &[u8]) -> Result<(), SheetFault>
    ensures taken { (s : State) → T.shows to.old s → Taken (coding_of K.Kind) (T.cells to.old) sheet.now s result (T.shows to.new) }
    ensures room { T.cells to.new ≡ T.cells to.old }
    ensures kept { T.keeps to.old to.new }
{
    for found in Reader::new(sheet)? {
        let found = found?;
        take(to, found).map_err(|fault| SheetFault::AtRecord {
            offset: found.offset,
            fault,
        })?;
    }
    Ok(())
}

// Reads a sheet into the net, and alters it only if the whole sheet is accepted.
pub fn read<K: Kind>(net: &mut Net<'_, K>, sheet: &[u8]) -> Result<(), SheetFault>
    ensures reading { reading (faults_told result) (state K.Kind.amount net.new) ≡ read_sheet (coding_of K.Kind) (room net.old) sheet.now (state K.Kind.amount net.old) }
    ensures untouched { Untouched result net.old net.new }
    ensures calls { AsCalls result (performed_all K.Kind.arithmetic (room net.old) (calls_of (coding_of K.Kind) sheet.now) (state K.Kind.amount net.old)) (state K.Kind.amount net.new) }
    ensures again { RewrittenBack (coding_of K.Kind) result (state K.Kind.amount net.new) }
    ensures amounts { IfAmounts K.Kind.arithmetic result (calls_of (coding_of K.Kind) sheet.now) }
    ensures kept { room net.new ≡ room net.old }
    ensures sound { Sound K.Kind.arithmetic (state K.Kind.amount net.old) → Sound K.Kind.arithmetic (state K.Kind.amount net.new) }
    ensures faithful { Kept K.Kind.arithmetic K.Kind.amount net.old → Kept K.Kind.arithmetic K.Kind.amount net.new }
{
    let mut outline = Outline {
        events: net.events(),
        cells: net.room(),
    };
    take_all::<K, Outline>(&mut outline, sheet)?;
    take_all(net, sheet)
}
