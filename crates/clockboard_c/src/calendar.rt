//! The time bytes of a setup by a time since 1970.
ghost use Rattle.std.specs.Prelude.{◌≡◌};
ghost use Rattle.clockboard_c.specs.Calendar.{setup_at_code, setup_at};

use crate::code::{OK, OUT_OF_RANGE};
use crate::power_on::SetupWords;
use rtc_calendar::{Form, TimeBytes, after};

/// How the bytes spell numbers at power on, as register B is 02h.
const FORM: Form = Form {
    binary: false,
    hours24: true,
};

/// Midnight of Thursday, 1 January 1970.
const EPOCH: TimeBytes = TimeBytes {
    sec: 0,
    min: 0,
    hour: 0,
    wday: 5,
    date: 1,
    month: 1,
    year: 0x70,
};

/// Seconds from 1970 to 1 March 2100. The clock has a leap day on the day before, and the calendar hasn't.
pub const MARCH_2100: u64 = 4_107_542_400;

/// Sets the time bytes of a setup to `seconds` since midnight of 1 January 1970, as UTC counts them without leap seconds.
/// `OUT_OF_RANGE` from 1 March 2100 on; the setup is then as it was.
#[unsafe(no_mangle)]
pub extern "C" fn clockboard_setup_at(setup: &mut SetupWords, seconds: u64) -> u32
    ensures code { result ≡ setup_at_code seconds }
    ensures setup { setup.new ≡ setup_at seconds setup.old }
{
    if seconds >= MARCH_2100 {
        return OUT_OF_RANGE;
    }
    let time = after(EPOCH, FORM, seconds);
    setup.sec = time.sec;
    setup.min = time.min;
    setup.hour = time.hour;
    setup.wday = time.wday;
    setup.date = time.date;
    setup.month = time.month;
    setup.year = time.year;
    OK
}
