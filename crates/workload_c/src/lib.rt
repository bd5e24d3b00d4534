// The work of the crate workload under the names that C calls: speed/work.h declares them.
// Stays one function for each, with their parameters side by side: they are the C interface.
#![tactic(auto)]

use manager::Manager;

// Rounds of a box of this style.
#[unsafe(no_mangle)]
pub extern "C" fn proved_play(
    sheet: &[u8],
    style: u8,
    rounds: u64,
    out: &mut [u8; Manager::TICK_NEEDS],
) -> u32 {
    workload::proved_play(sheet, style, rounds, out)
}

// Ticks of networks that have come to where they stay in a box of this style.
#[unsafe(no_mangle)]
pub extern "C" fn proved_ticks(
    sheet: &[u8],
    style: u8,
    rounds: u64,
    out: &mut [u8; Manager::TICK_NEEDS],
) -> u32 {
    workload::proved_ticks(sheet, style, rounds, out)
}

// The same two with a manager that listens.
#[unsafe(no_mangle)]
pub extern "C" fn proved_quiet_play(
    sheet: &[u8],
    style: u8,
    rounds: u64,
    out: &mut [u8; Manager::TICK_NEEDS],
) -> u32 {
    workload::proved_quiet_play(sheet, style, rounds, out)
}

#[unsafe(no_mangle)]
pub extern "C" fn proved_quiet_ticks(
    sheet: &[u8],
    style: u8,
    rounds: u64,
    out: &mut [u8; Manager::TICK_NEEDS],
) -> u32 {
    workload::proved_quiet_ticks(sheet, style, rounds, out)
}

// Answers of controllers that were asked to stop.
#[unsafe(no_mangle)]
pub extern "C" fn proved_answers(
    sheet: &[u8],
    controllers: u8,
    rounds: u64,
    out: &mut [u8; Manager::TICK_NEEDS],
) -> u32 {
    workload::proved_answers(sheet, controllers, rounds, out)
}
