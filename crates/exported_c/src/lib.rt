// What a program in C or Rust links to measure the core by: the two calls of crate exported, under the same names. Depends on exported.
#![tactic(auto)]

ghost use Rattle.std.specs.Prelude.{◌≡◌};
ghost use Rattle.packet.specs.Readings.{reading_of};
ghost use Rattle.exported.specs.Folds.{folded};
ghost use Rattle.exported.specs.Readings.{reading_numbers};
ghost use Rattle.exported.specs.Calls.{calls_run, run_number};

// All that is read of a packet, as one number.
#[unsafe(no_mangle)]
pub extern "C" fn nisgrove_read(packet: &[u8]) -> u64
    ensures { result ≡ folded (reading_numbers (reading_of packet.now)) }
{
    exported::nisgrove_read(packet)
}

// Calls one after another on a new association, as one number with the credit and the time that are left at the end. Each byte of `calls` names one, as
// crate exported says.
#[unsafe(no_mangle)]
pub extern "C" fn nisgrove_calls(
    calls: &[u8],
    first: &[u8],
    second: &[u8],
    buffer: &mut [u8],
) -> u64
    ensures value { result ≡ run_number (calls_run calls.now first.now second.now buffer.old) }
    ensures buffer_after { buffer.new ≡ (calls_run calls.now first.now second.now buffer.old).buffer }
{
    exported::nisgrove_calls(calls, first, second, buffer)
}
