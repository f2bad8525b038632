// The bench notebook of paper 01, cases A to O, played through the real calls. The answers wanted are typed from the paper.

#![tactic(auto)]

use bench::Bench;
use rules::{Ending, Policy, Refusal};
use std::io;

mod bench;

// A. Arrive 0 (3, 7), 1 (4, 7), 2 (1, 8): all taken. Nine slots: 0 0 0 1 1 1 1 2 255.
fn case_a(rt: &impl Print) -> io::Result<bool> {
    let mut bench = Bench::new(rt, "A", Policy::EarliestDeadline)?;
    bench.arrive(0, 3, 7, Ok(()))?;
    bench.arrive(1, 4, 7, Ok(()))?;
    bench.arrive(2, 1, 8, Ok(()))?;
    bench.slots(&[0, 0, 0, 1, 1, 1, 1, 2, 255])?;
    bench.end()
}

// B. Arrive 0 (3, 7), 1 (4, 6): taken. Seven slots: 1 1 1 1 0 0 0.
fn case_b(rt: &impl Print) -> io::Result<bool> {
    let mut bench = Bench::new(rt, "B", Policy::EarliestDeadline)?;
    bench.arrive(0, 3, 7, Ok(()))?;
    bench.arrive(1, 4, 6, Ok(()))?;
    bench.slots(&[1, 1, 1, 1, 0, 0, 0])?;
    bench.end()
}

// C. B's arrivals, then 2 (1, 7): 9. Then 2 (1, 8): taken.
fn case_c(rt: &impl Print) -> io::Result<bool> {
    let mut bench = Bench::new(rt, "C", Policy::EarliestDeadline)?;
    bench.arrive(0, 3, 7, Ok(()))?;
    bench.arrive(1, 4, 6, Ok(()))?;
    bench.arrive(2, 1, 7, Err(Refusal::NoFit))?;
    bench.arrive(2, 1, 8, Ok(()))?;
    bench.end()
}

// D. Arrive 0 (3, 10), one slot, arrive 1 (2, 4), five slots: 0, then 1 1 0 0 255.
fn case_d(rt: &impl Print) -> io::Result<bool> {
    let mut bench = Bench::new(rt, "D", Policy::EarliestDeadline)?;
    bench.arrive(0, 3, 10, Ok(()))?;
    bench.slots(&[0])?;
    bench.arrive(1, 2, 4, Ok(()))?;
    bench.slots(&[1, 1, 0, 0, 255])?;
    bench.end()
}

// E. Arrive 0 (3, 3), 1 (1, 3): the second 9. One slot, depart 0, arrive 1 (2, 2): taken.
fn case_e(rt: &impl Print) -> io::Result<bool> {
    let mut bench = Bench::new(rt, "E", Policy::EarliestDeadline)?;
    bench.arrive(0, 3, 3, Ok(()))?;
    bench.arrive(1, 1, 3, Err(Refusal::NoFit))?;
    bench.slots(&[0])?;
    bench.depart(0, Ok(()))?;
    bench.arrive(1, 2, 2, Ok(()))?;
    bench.end()
}

// F. Arrive 0 (3, 7) at 0. Arrive 0 again at clock 2: 6. At 9: 7. At 10: taken.
fn case_f(rt: &impl Print) -> io::Result<bool> {
    let mut bench = Bench::new(rt, "F", Policy::EarliestDeadline)?;
    bench.arrive(0, 3, 7, Ok(()))?;
    bench.slots(&[0, 0])?;
    bench.clock(2)?;
    bench.arrive(0, 3, 7, Err(Refusal::JobLive))?;
    bench.slots(&[0, 255, 255, 255, 255, 255, 255])?;
    bench.clock(9)?;
    bench.arrive(0, 3, 7, Err(Refusal::TooEarly))?;
    bench.slots(&[255])?;
    bench.clock(10)?;
    bench.arrive(0, 3, 7, Ok(()))?;
    bench.end()
}

// G. Job at place 0 taken at 0 and spent. Close at 9: 7. At 10: done.
fn case_g(rt: &impl Print) -> io::Result<bool> {
    let mut bench = Bench::new(rt, "G", Policy::EarliestDeadline)?;
    bench.arrive(0, 3, 7, Ok(()))?;
    bench.slots(&[0, 0, 0, 255, 255, 255, 255, 255, 255])?;
    bench.ending(0, Ending::Spent)?;
    bench.clock(9)?;
    bench.close(0, Err(Refusal::TooEarly))?;
    bench.slots(&[255])?;
    bench.clock(10)?;
    bench.close(0, Ok(()))?;
    bench.end()
}

// H. Policy 2; place 0 level 5, place 1 level 2; arrive 0 (3, 5), 1 (4, 5). Five slots: 1 1 1 1 0; place 0 then ends late, ending 3.
fn case_h(rt: &impl Print) -> io::Result<bool> {
    let mut bench = Bench::new(rt, "H", Policy::FixedPriority)?;
    bench.arrive(0, 3, 5, Ok(()))?;
    bench.arrive(1, 4, 5, Ok(()))?;
    bench.slots(&[1, 1, 1, 1, 0])?;
    bench.ending(0, Ending::Late)?;
    bench.end()
}

// I. Policy 2; arrive 1 (4, 4) alone, four slots: ending 2, not 3.
fn case_i(rt: &impl Print) -> io::Result<bool> {
    let mut bench = Bench::new(rt, "I", Policy::FixedPriority)?;
    bench.arrive(1, 4, 4, Ok(()))?;
    bench.slots(&[1, 1, 1, 1])?;
    bench.ending(1, Ending::Spent)?;
    bench.end()
}

// J. Advance 0 slots into an empty record at start 0: done, nothing changed.
fn case_j(rt: &impl Print) -> io::Result<bool> {
    let mut bench = Bench::new(rt, "J", Policy::EarliestDeadline)?;
    let before = bench.table;
    let mut record: [u8; 0] = [];
    bench.advance(0, &mut record, 0, Ok(()))?;
    bench.clock(0)?;
    bench.unchanged(&before)?;
    bench.end()
}

// K. Record of 10 bytes: start 8, n 2 done; start 8, n 3 gives 11; start 11, n 0 gives 11.
fn case_k(rt: &impl Print) -> io::Result<bool> {
    let mut bench = Bench::new(rt, "K", Policy::EarliestDeadline)?;
    let mut record = [9u8; 10];
    bench.advance(2, &mut record, 8, Ok(()))?;
    bench.advance(3, &mut record, 8, Err(Refusal::NoRoom))?;
    bench.advance(0, &mut record, 11, Err(Refusal::NoRoom))?;
    bench.holds(&record, &[9, 9, 9, 9, 9, 9, 9, 9, 255, 255])?;
    bench.end()
}

// L. n 4,096 done given space; 4,097 gives 5. Place 15 may be opened; 16 gives 2.
fn case_l(rt: &impl Print) -> io::Result<bool> {
    let mut bench = Bench::new(rt, "L", Policy::EarliestDeadline)?;
    let mut record = [9u8; 4097];
    bench.advance(4_096, &mut record, 0, Ok(()))?;
    bench.advance(4_097, &mut record, 0, Err(Refusal::BadFigures))?;
    bench.open(15, 0, 1, 1, Ok(()))?;
    bench.open(16, 0, 1, 1, Err(Refusal::NoPlace))?;
    bench.end()
}

// M. Now 3,999,999,990, all idle: D 10 passes check 8; D 11 gives 8.
fn case_m(rt: &impl Print) -> io::Result<bool> {
    let mut bench = Bench::new(rt, "M", Policy::EarliestDeadline)?;
    bench.all_idle_until(3_999_999_990)?;
    bench.arrive(0, 3, 11, Err(Refusal::BeyondClock))?;
    bench.arrive(0, 3, 10, Ok(()))?;
    bench.end()
}

// N. Arrive with b 0 on a closed place: 4, not 5. The zero table to any call but set-up: 1.
fn case_n(rt: &impl Print) -> io::Result<bool> {
    let mut bench = Bench::new(rt, "N", Policy::EarliestDeadline)?;
    bench.arrive(3, 0, 5, Err(Refusal::NotOpen))?;
    bench.zeros()?;
    bench.open(0, 0, 3, 10, Err(Refusal::NotSound))?;
    bench.close(0, Err(Refusal::NotSound))?;
    bench.arrive(0, 3, 7, Err(Refusal::NotSound))?;
    bench.depart(0, Err(Refusal::NotSound))?;
    bench.election(Err(Refusal::NotSound))?;
    bench.slot(Err(Refusal::NotSound))?;
    let mut record = [9u8; 4];
    bench.advance(1, &mut record, 0, Err(Refusal::NotSound))?;
    bench.holds(&record, &[9, 9, 9, 9])?;
    bench.end()
}

// O. Arrive 0 (3, 4): taken. Arrive 1 (2, 2): 9, for the two jobs together would need five slots by tick 4. Arrive 1 (1, 2): taken.
fn case_o(rt: &impl Print) -> io::Result<bool> {
    let mut bench = Bench::new(rt, "O", Policy::EarliestDeadline)?;
    bench.arrive(0, 3, 4, Ok(()))?;
    bench.arrive(1, 2, 2, Err(Refusal::NoFit))?;
    bench.arrive(1, 1, 2, Ok(()))?;
    bench.end()
}

fn main(rt: HostRuntime) -> io::Result<()> {
    let rt = &rt;
    let right = [
        case_a(rt)?,
        case_b(rt)?,
        case_c(rt)?,
        case_d(rt)?,
        case_e(rt)?,
        case_f(rt)?,
        case_g(rt)?,
        case_h(rt)?,
        case_i(rt)?,
        case_j(rt)?,
        case_k(rt)?,
        case_l(rt)?,
        case_m(rt)?,
        case_n(rt)?,
        case_o(rt)?,
    ];
    if right.iter().all(|&right| right) {
        println!(rt; "All fifteen cases are as the notebook says.")
    } else {
        println!(rt; "Some case is NOT as the notebook says: see the lines above.")
    }
}
