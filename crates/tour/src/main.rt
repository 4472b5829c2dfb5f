// Plans two bus cycles, each on a net of its own, call by call: prints each call with its answer, and what the net
// tells then.
#![tactic(auto)]

mod shown;

use history::call::Call;
use history::performing::perform;
use kinds::kind::Kind;
use kinds::micros::Micros;
use kinds::strict::StrictMicros;
use shown::{ShownAnswer, ShownAsked, ShownCall, ShownClosing};
use std::fmt::Display;
use table::cell::Cell;
use table::grid::blank;

// Three events: a master's call, a drive's answer, and the end of the cycle.
const SHEET: [u8; 45] = [
    1, 0, 3, 1, 3, 1, 0, 11, 2, 0, 1, 0, 0, 0, 0, 0, 0, 0, 100, 0, 11, 2, 1, 0, 255, 255, 255, 255,
    255, 255, 255, 216, 0, 11, 2, 1, 2, 0, 0, 0, 0, 0, 0, 0, 50,
];

// Performs the calls on one net over the table, and tells all answers.
// events go as plain numbers, as the net takes them
fn plan<K: Kind + Display>(
    rt: &impl Print,
    table: &mut [Cell<K>],
    calls: &[Call<'_, K>],
    from: usize,
    to: usize,
) -> anyhow::Result<()> {
    let mut place = [0u8; 4];
    // slots beside the calls, as history takes them
    let mut answers = [Ok(()); 16];
    let report = perform(table, calls, &mut place, &mut answers, from, to);
    for (call, answer) in calls.iter().zip(answers) {
        println!(rt; "  {}: {}", ShownCall(call), ShownAnswer(answer))?;
    }
    println!(rt; "  from {from} to {to}: {}", ShownAsked(report.before))?;
    println!(rt; "  close: {}", ShownClosing(report.closing, &place))?;
    println!(rt; "  from {from} to {to}: {}", ShownAsked(report.after))?;
    Ok(())
}

fn run(rt: &impl Print) -> anyhow::Result<()> {
    let kept = [
        Call::Require(0, 1, Micros(5)),
        Call::Begin(200),
        Call::Read(&SHEET),
        Call::Require(2, 1, Micros(-10)),
        Call::Require(0, 2, Micros(200)),
        Call::Require(2, 2, Micros(0)),
        Call::Require(2, 0, Micros(-300)),
        Call::Withdraw(2, 0),
        Call::Withdraw(2, 0),
        Call::Arrange(&[2, 1, 1]),
        Call::Rank,
        Call::Close(3),
    ];
    println!(rt; "a cycle that can be kept")?;
    plan(rt, &mut [blank(); 9], &kept, 0, 2)?;
    let broken = [
        Call::Begin(2),
        Call::Require(
            0,
            1,
            StrictMicros {
                number: 5,
                mark: -1,
            },
        ),
        Call::Require(
            1,
            0,
            StrictMicros {
                number: -5,
                mark: 0,
            },
        ),
        Call::Close(1),
        Call::Close(2),
    ];
    println!(rt; "a cycle with a strict bound that cannot")?;
    plan(rt, &mut [blank(); 4], &broken, 0, 1)
}

fn main(rt: HostRuntime) -> anyhow::Result<()> {
    run(&rt)
}
