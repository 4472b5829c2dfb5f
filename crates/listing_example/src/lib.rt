// The listing of a worked sheet, for the definition that the listing's contract cites.
#![tactic(auto)]

ghost use Rattle.listing_example.specs.Worked.{WorkedText};

pub fn worked_sheet_is_listed()
    ensures { WorkedText }
{}
