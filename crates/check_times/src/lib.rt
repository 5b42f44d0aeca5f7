// The times of a check that is not answered: when it is sent again, and when it is given up. Numbers alone. Depends on nothing.
#![tactic(auto)]

ghost use Rattle.std.specs.Prelude.{◌≡◌};
ghost use Rattle.check_times.specs.Times.{reached, is_due, is_given_up, is_bad_check};

// The moments at which a check is sent again, in seconds after issue.
const MOMENTS: [u64; 4] = [1, 2, 4, 8];

// A check that is so many seconds old is given up.
const CHECK_LIFE: u64 = 16;

// The moments reached at the time: those that are at most so many seconds after issue.
// It is no `filter` with `count` over the moments: that took 55 instructions for 14, since its loop is not unrolled, and a tick asks it of every check.
pub fn reached(issued: u64, time: u64) -> u8
    ensures { result ≡ reached issued time }
{
    let seconds = time.saturating_sub(issued);
    let [first, second, third, last] = MOMENTS;
    u8::from(first <= seconds)
        + u8::from(second <= seconds)
        + u8::from(third <= seconds)
        + u8::from(last <= seconds)
}

// The check is to be sent again: its count is below the moments reached.
pub fn is_due(issued: u64, resends: u8, time: u64) -> bool
    ensures { result ≡ is_due issued resends time }
{
    resends < reached(issued, time)
}

// The check is given up.
pub fn is_given_up(issued: u64, time: u64) -> bool
    ensures { result ≡ is_given_up issued time }
{
    CHECK_LIFE <= time.saturating_sub(issued)
}

// Refusal 0 of a check: it is issued after the stored time, or was sent again more often than there are moments.
pub fn is_bad_check(issued: u64, resends: u8, time: u64) -> bool
    ensures { result ≡ is_bad_check issued resends time }
{
    time < issued || MOMENTS.len() < usize::from(resends)
}
